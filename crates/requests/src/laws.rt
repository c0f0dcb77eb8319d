// Laws of requests, each as the contract of a function.
ghost use Rattle.requests.specs.Laws.{GiveUndoesTake, RefusalsNumbered};

// A shelf whose free blocks are as we write them comes back cell by cell if what was taken is given back.
pub fn giving_undoes_taking()
    ensures { GiveUndoesTake }
{}

// Each refusal has a number of its own, from 1 to 6.
pub fn refusals_are_numbered()
    ensures { RefusalsNumbered }
{}
