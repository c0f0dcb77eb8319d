// What a checksum sees of a hit, each as the contract of a function.
ghost use Rattle.recovery.specs.Hits.{LimitIsPrime, OneHitSeen};

// The number by which checksums are taken is a prime.
pub fn limit_is_prime()
    ensures { LimitIsPrime }
{}

// A block of which one cell became another does not stand, unless its first cell tells another length then.
pub fn one_hit_seen()
    ensures { OneHitSeen }
{}
