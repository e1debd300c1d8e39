//! Which files are readable.
ghost use Rattle.std.specs.Prelude.{ℕ, List};
ghost use Rattle.xr_files.specs.Canonical.{IsFile};
ghost use Rattle.xr_files.specs.Files.{Spells};
ghost use Rattle.xr_files.specs.declared.file.CdfFile.{CdfFile};
ghost use Rattle.xr_decode.specs.Readable.{IsReadable};

/// A file whose parts fit together is readable, and so is each file that bytes spell.
#[tactic(auto, using(crate::proofs::Spelled::file_readable))]
pub fn files_are_readable()
    ensures whole { (f : CdfFile) → IsFile f → IsReadable f }
    ensures spelled { (bytes : List ℕ) (f : CdfFile) → Spells bytes f → IsReadable f }
{}
