ghost use Rattle.std.specs.Prelude.{◌≡◌};
ghost use Rattle.tk_c.specs.Version.{version};

/// Returns the version of this archive, 0.3.0, encoded as `TKC_VERSION` in include/tkcore.h.
#[unsafe(no_mangle)]
pub extern "C" fn tkc_version() -> u32
    ensures { result ≡ version }
{
    3 << 8
}
