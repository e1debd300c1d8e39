//! What holds of every file that is written.
ghost use Rattle.std.specs.Prelude.{◌≡◌, Ok, true};
ghost use Rattle.xr_files.specs.Canonical.{IsFile, can_hold, canonical, is_small};
ghost use Rattle.xr_files.specs.Files.{Spells, file_in};

use xr_files::CdfFile;
/// The canonical bytes of a file spell it, and so reading them gives the file again. The call does nothing.
pub fn reads_again(file: &CdfFile)
    requires file { IsFile file.now }
    requires held { can_hold file.now ≡ true }
    requires small { is_small file.now ≡ true }
    ensures spelled { Spells (canonical file.now) file.now }
    ensures read { file_in (canonical file.now) ≡ Ok file.now }
{}
