// The library's version, so that a program can compare the archive with the header that it was compiled with.
ghost use Rattle.std.specs.Prelude.{◌≡◌};
ghost use Rattle.capi.specs.version.Version.{version_number};

// Release 1.0.0, as major * 10000 + minor * 100 + patch.
pub const VERSION: u32 = 10000;

// The version of the archive.
pub fn whatif_version() -> u32
    ensures { result ≡ version_number }
{
    VERSION
}
