// The version of what C sees.

ghost use Rattle.std.specs.Prelude.{◌≡◌};
ghost use Rattle.board.specs.Version.{version};

// "Raised whenever the record or a code changes".
const VERSION: u32 = 6;

// The library's version.
pub fn muk_version() -> u32
    ensures { result ≡ version }
{
    VERSION
}
