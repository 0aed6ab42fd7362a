// The version, for C and Rust.
#![tactic(auto)]

ghost use Rattle.std.specs.Prelude.{◌≡◌};
ghost use Rattle.export_version.specs.Version.{version};

const VERSION: u64 = 300;

#[unsafe(no_mangle)]
pub extern "C" fn fen_version() -> u64
    ensures { result ≡ version }
{
    VERSION
}
