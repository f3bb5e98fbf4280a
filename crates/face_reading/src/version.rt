// The version of the library for C programs.
ghost use Rattle.std.specs.Prelude.{◌≡◌};
ghost use Rattle.face_reading.specs.Version.{version};

pub fn wt_version() -> u32
    ensures { result ≡ version }
{
    10400
}
