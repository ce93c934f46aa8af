//! A command of any package.
ghost use Rattle.std.specs.Prelude.{IsTrue, ◌↔◌};
ghost use Rattle.package_grammar.specs.Grammar.{IsValid};

/// A command of one of the four packages, by the crate that has its table. PackageVersionReq and its answer are in both: those of
/// ports 200 and 201 are `Cast`, those of ports 202 and 203 `Sync`.
#[derive(Debug, PartialEq, Drop)]
pub enum Command<'a> {
    /// TS003-1.0.0 and TS006-1.0.0.
    Sync(sync_wire::Cmd),
    /// TS004-1.0.0 and TS005-1.0.0.
    Cast(cast_wire::Cmd<'a>),
}

/// Says whether each field fits the bits that its row of the table gives it, and the fields fit together.
pub fn valid(command: &Command) -> bool
    ensures { IsTrue result ↔ IsValid command.now }
{
    match command {
        Command::Sync(cmd) => sync_wire::valid(cmd),
        Command::Cast(cmd) => cast_wire::valid(cmd),
    }
}
