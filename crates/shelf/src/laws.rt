// The laws of sound shelves, each as the contract of a function.
ghost use Rattle.shelf.specs.Laws.{ByPieces, HeadsArePlaces, NobodyHasTwo, NoSharing, ThreeDeadUnsound, FaultIsUnsound};

// A shelf is sound just where it is a row of sound pieces.
pub fn sound_by_pieces()
    ensures { ByPieces }
{}

// Every cell of a sound shelf that looks like a head's first is a place of the walk.
pub fn heads_are_places()
    ensures { HeadsArePlaces }
{}

// Somebody's block is the one block in use that is theirs.
pub fn nobody_has_two()
    ensures { NobodyHasTwo }
{}

// Two blocks of a sound shelf never share a cell.
pub fn sound_shares_no_cell()
    ensures { NoSharing }
{}

// Three dead cells together are not sound.
pub fn three_dead_unsound()
    ensures { ThreeDeadUnsound }
{}

// There is a first place at fault just where the shelf isn't sound.
pub fn faults_are_unsound()
    ensures { FaultIsUnsound }
{}
