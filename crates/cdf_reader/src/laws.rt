//! Laws of reading: that one answer fits, and how many records a streamed file has.
ghost use Rattle.std.specs.Prelude.{◌≡◌, ◌⊎◌, ◌<◌, ◌≤◌, ℕ, List, [], length, All, None};
ghost use Rattle.xr_types.specs.declared.fault.CdfKind.{CdfKind};
ghost use Rattle.xr_files.specs.declared.file.CdfFile.{CdfFile};
ghost use Rattle.xr_files.specs.Classic.{Header};
ghost use Rattle.xr_files.specs.Files.{file_in, Spells, Meets, record_vars, records_of, RecordsLie};

/// Bytes spell one file or meet one fault, and not both: whichever it is, the one function gives it.
pub fn one_answer()
    ensures spelled { (bytes : List ℕ) (f : CdfFile) → Spells bytes f → file_in bytes ≡ Ok f }
    ensures met { (bytes : List ℕ) (kind : CdfKind) (offset : ℕ) → Meets bytes kind offset → file_in bytes ≡ Err (kind, offset) }
    ensures some { (bytes : List ℕ) → All (λ b. b < 256) bytes → ((f : CdfFile) × Spells bytes f) ⊎ ((kind : CdfKind) × (offset : ℕ) × Meets bytes kind offset) }
{}

/// The number of records of a streamed file is the greatest of which the records of all record variables lie in
/// the file, and 0 where there is no record variable.
pub fn most_records()
    ensures lie { (h : Header) (bytes r : ℕ) → h.numrecs ≡ None → r ≤ records_of h bytes → All (RecordsLie h bytes r) (record_vars h.dims h.vars) }
    ensures most { (h : Header) (bytes r : ℕ) → h.numrecs ≡ None → 0 < length (record_vars h.dims h.vars) → All (RecordsLie h bytes r) (record_vars h.dims h.vars) → r ≤ records_of h bytes }
    ensures none { (h : Header) (bytes : ℕ) → h.numrecs ≡ None → record_vars h.dims h.vars ≡ [] → records_of h bytes ≡ 0 }
{}
