// The promises of what is found, each as the contract of a function.
ghost use Rattle.recovery.specs.Promise.{FoundIsFirst, Apart, SavesUsed, UsedOrDamaged, UsedIsFound, SavesAll, AddsOnlyDamaged, NothingNew, CanBeMended};

// What is found is the first block in use of each owner, and nothing else.
pub fn found_is_first()
    ensures { FoundIsFirst }
{}

// No block that is found reaches into another.
pub fn found_blocks_apart()
    ensures { Apart }
{}

// Where nobody has two blocks in use, each of which no cell was hit is found, unless a damaged one is found
// before it under the same owner.
pub fn saves_used()
    ensures { SavesUsed }
{}

// What is found stood there in use, or has a damaged cell.
pub fn used_or_damaged()
    ensures { UsedOrDamaged }
{}

// Where nobody has two blocks in use, all that is in use is found, and nothing else.
pub fn used_is_found()
    ensures { UsedIsFound }
{}

// Of a sound shelf everybody's block of which no cell was hit is found, unless a damaged one is found before it
// as theirs.
pub fn saves_all()
    ensures { SavesAll }
{}

// What is found and was not there has a damaged cell.
pub fn adds_only_damaged()
    ensures { AddsOnlyDamaged }
{}

// On a sound shelf all that is in use is found, and nothing else.
pub fn nothing_new()
    ensures { NothingNew }
{}

// From every shelf there is a sound one with what was found, each where it stood, and nothing more.
pub fn can_be_mended()
    ensures { CanBeMended }
{}
