ghost use Rattle.std.specs.Prelude.{◌≡◌};

/// The version of the library: its first number times 1,000,000, its second times 1,000, and its third.
#[unsafe(no_mangle)]
pub extern "C" fn ptpx_raw_version() -> u32
    ensures { result ≡ 9000 }
{
    9_000
}
