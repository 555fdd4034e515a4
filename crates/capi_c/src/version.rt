// The library's version.
ghost use Rattle.std.specs.Prelude.{◌≡◌};
ghost use Rattle.capi.specs.version.Version.{version_number};

// The version of the archive.
#[unsafe(no_mangle)]
pub extern "C" fn whatif_version() -> u32
    ensures { result ≡ version_number }
{
    capi::version::whatif_version()
}
