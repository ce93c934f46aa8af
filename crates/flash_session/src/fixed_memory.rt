//! What a session in flash knows in its fixed memory: a law, the contract of a function with an empty body.

ghost use Rattle.flash_session.specs.FixedMemory.{FixedMemory};

/// The flash keeps only a count of a fragment that is not new. Still, what a session holds in its fixed memory is what its whole
/// list says, after a restart too: the same blocks fit, the rows held are its excess, and nothing is decided while two files fit.
pub fn fixed_memory_knows_all()
    ensures { FixedMemory }
{}
