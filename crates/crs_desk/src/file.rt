ghost use Rattle.std.specs.Prelude.{◌≡◌, map};
ghost use Rattle.std.specs.Option.{option_copied};
ghost use Rattle.crs_desk.specs.Desk.{file_of};
ghost use Rattle.crs_desk.specs.File.{pair_of};

/// A name with its bytes.
#[derive(Drop)]
pub struct File {
    pub name: Vec<u8>,
    pub bytes: Vec<u8>,
}

// The bytes of a name, or none where no file has it.
pub fn bytes_of<'a>(files: &'a [File], name: &[u8]) -> Option<&'a [u8]>
    ensures { option_copied result ≡ file_of (map pair_of files.now) name.now }
{
    for file in files {
        if name == file.name.as_slice() {
            return Some(file.bytes.as_slice());
        }
    }
    None
}
