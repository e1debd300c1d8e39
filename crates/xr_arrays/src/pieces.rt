//! Bytes that stand in pieces, as the values of a record variable do in a file.
ghost use Rattle.std.specs.Prelude.{◌≡◌, ◌<◌, ◌≤◌, ◌+◌, ◌*◌, ◌%◌, ◌/◌, true, false, length, take, drop, IfOk, MatchOption, OnSome};
ghost use Rattle.xr_types.specs.declared.attr.NcType.{NcType as AType};
ghost use Rattle.xr_types.specs.Widths.{width};
ghost use Rattle.xr_arrays.specs.Pieces.{are_inside, pieces, together, values_in, AreInside};

use bytes::Bytes;
use std::alloc::{AllocError, Global};
use xr_types::NcType;

/// So many pieces of so many values each, the first from a byte on and one each step, in bytes that others may share.
#[derive(Drop)]
pub struct Pieces {
    bytes: Bytes,
    begin: usize,
    step: usize,
    cells: usize,
    count: usize,
}

/// Values that stand one behind the other, and how many they are.
#[derive(Clone, Copy)]
pub struct Run<'a> {
    pub bytes: &'a [u8],
    pub count: usize,
}

// Where a value stands, and how many stand from it on to the end of its piece.
#[derive(Clone, Copy)]
struct Place {
    byte: usize,
    count: usize,
}

/// How many bytes a value of a type takes.
pub fn width(kind: NcType) -> usize
    ensures { result ≡ width kind }
{
    match kind {
        NcType::Byte | NcType::Char | NcType::UByte => 1,
        NcType::Short | NcType::UShort => 2,
        NcType::Int | NcType::Float | NcType::UInt => 4,
        NcType::Double | NcType::Int64 | NcType::UInt64 => 8,
    }
}

impl Pieces {
    /// All values of these bytes, in one piece.
    #[tactic(auto, using(crate::proofs::Together::whole_is, crate::proofs::Together::whole_inside, crate::proofs::Together::whole_few))]
    pub fn whole(kind: NcType, bytes: Bytes) -> Pieces
        requires { length bytes % width kind ≡ 0 }
        ensures together { together kind result ≡ bytes }
        ensures inside { AreInside kind result }
    {
        Pieces {
            cells: bytes.len() / width(kind),
            bytes,
            begin: 0,
            step: 0,
            count: 1,
        }
    }

    /// Pieces of so many bytes each, where there is one, they hold whole values and lie apart, and the last ends within the bytes.
    #[tactic(auto, using(crate::proofs::Together::apart_is))]
    pub fn apart(
        kind: NcType,
        bytes: Bytes,
        begin: u64,
        step: u64,
        size: u64,
        count: u64,
    ) -> Option<Pieces>
        ensures { MatchOption result (are_inside kind (length bytes) begin step size count ≡ false) (λ p. (are_inside kind (length bytes) begin step size count ≡ true) × (together kind p ≡ pieces bytes begin step size count) × AreInside kind p) }
    {
        let width = width(kind) as u64;
        if size % width != 0 || size > step || count == 0 {
            return None;
        }
        let last = begin.saturating_add((count - 1).saturating_mul(step));
        if last.saturating_add(size) > bytes.len() as u64 {
            return None;
        }
        Some(Pieces {
            bytes,
            begin: begin as usize,
            step: step as usize,
            cells: (size / width) as usize,
            count: count as usize,
        })
    }

    // Where a value stands.
    fn place(&self, kind: NcType, from: usize) -> Place
        requires inside { AreInside kind self.now }
        requires from { from < values_in self.now }
        ensures some { 0 < result.count }
        ensures within { from + result.count ≤ values_in self.now }
        ensures end { result.byte + result.count * width kind ≤ length self.now.bytes }
        ensures byte { result.byte ≡ self.now.begin + from / self.now.cells * self.now.step + from % self.now.cells * width kind }
        ensures values { take (result.count * width kind) (drop result.byte self.now.bytes) ≡ take (result.count * width kind) (drop (from * width kind) (together kind self.now)) }
    {
        let piece = from / self.cells;
        let at = from % self.cells;
        Place {
            byte: self.begin + piece * self.step + at * width(kind),
            count: self.cells - at,
        }
    }

    /// The values from one on to the end of its piece.
    pub fn run(&self, kind: NcType, from: usize) -> Run<'_>
        requires inside { AreInside kind self.now }
        requires from { from < values_in self.now }
        ensures some { 0 < result.count }
        ensures within { from + result.count ≤ values_in self.now }
        ensures long { length result.bytes.now ≡ result.count * width kind }
        ensures values { result.bytes.now ≡ take (result.count * width kind) (drop (from * width kind) (together kind self.now)) }
    {
        let place = self.place(kind, from);
        let end = place.byte + place.count * width(kind);
        Run {
            bytes: &self.bytes.as_slice()[place.byte..end],
            count: place.count,
        }
    }

    // The bytes of so many values from one on, put together in new memory.
    fn gathered(
        &self,
        alloc: Global,
        kind: NcType,
        from: usize,
        n: usize,
    ) -> Result<Bytes, AllocError>
        requires inside { AreInside kind self.now }
        requires within { from + n ≤ values_in self.now }
        ensures { IfOk result (λ b. b ≡ take (n * width kind) (drop (from * width kind) (together kind self.now))) }
    {
        let width = width(kind);
        let mut gathered = Vec::with_capacity(alloc, n * width)?;
        let mut done = 0;
        while done < n {
            let run = self.run(kind, from + done);
            let more = run.count.min(n - done);
            gathered.extend_from_slice(&run.bytes[..more * width])?;
            done += more;
        }
        Ok(Bytes::from_vec(gathered)?)
    }

    /// The bytes of so many values from one on: shared where they stand in one piece, else put together in new memory.
    pub fn part(
        &self,
        alloc: Global,
        kind: NcType,
        from: usize,
        n: usize,
    ) -> Result<Bytes, AllocError>
        requires inside { AreInside kind self.now }
        requires within { from + n ≤ values_in self.now }
        ensures { IfOk result (λ b. b ≡ take (n * width kind) (drop (from * width kind) (together kind self.now))) }
    {
        if n == 0 {
            return Ok(Bytes::new());
        }
        let place = self.place(kind, from);
        if n > place.count {
            return self.gathered(alloc, kind, from, n);
        }
        self.bytes.slice(place.byte..place.byte + n * width(kind))
    }

    // Whether so many values from one on are whole pieces.
    fn are_pieces(&self, from: usize, n: usize) -> bool
        ensures { result ≡ true → (0 < n) × (0 < self.now.cells) × (from % self.now.cells ≡ 0) × (n % self.now.cells ≡ 0) }
    {
        n > 0 && self.cells > 0 && from % self.cells == 0 && n % self.cells == 0
    }

    // So many values from one on, which are whole pieces.
    fn some_pieces(&self, kind: NcType, from: usize, n: usize) -> Result<Pieces, AllocError>
        requires some { 0 < n }
        requires cells { 0 < self.now.cells }
        requires from { from % self.now.cells ≡ 0 }
        requires whole { n % self.now.cells ≡ 0 }
        requires inside { AreInside kind self.now }
        requires within { from + n ≤ values_in self.now }
        ensures values { IfOk result (λ p. together kind p ≡ take (n * width kind) (drop (from * width kind) (together kind self.now))) }
        ensures inside { IfOk result (AreInside kind) }
    {
        let place = self.place(kind, from);
        Ok(Pieces {
            bytes: self.bytes.slice(..)?,
            begin: place.byte,
            step: self.step,
            cells: self.cells,
            count: n / self.cells,
        })
    }

    /// So many values from one on: they share the bytes where they stand in one piece or are whole pieces, else they are put
    /// together in new memory.
    pub fn cut(
        &self,
        alloc: Global,
        kind: NcType,
        from: usize,
        n: usize,
    ) -> Result<Pieces, AllocError>
        requires inside { AreInside kind self.now }
        requires within { from + n ≤ values_in self.now }
        ensures values { IfOk result (λ p. together kind p ≡ take (n * width kind) (drop (from * width kind) (together kind self.now))) }
        ensures inside { IfOk result (AreInside kind) }
    {
        if self.are_pieces(from, n) {
            return self.some_pieces(kind, from, n);
        }
        Ok(Pieces::whole(kind, self.part(alloc, kind, from, n)?))
    }

    #[tactic(auto, using(crate::proofs::Together::all_together, crate::proofs::Together::long_together))]
    /// The bytes of all values: shared where they stand in one piece, else put together in new memory.
    pub fn bytes(&self, alloc: Global, kind: NcType) -> Result<Bytes, AllocError>
        requires { AreInside kind self.now }
        ensures { IfOk result (λ b. b ≡ together kind self.now) }
    {
        self.part(alloc, kind, 0, self.count * self.cells)
    }

    /// The same pieces, which share the bytes.
    pub fn share(&self) -> Result<Pieces, AllocError>
        ensures { IfOk result (λ p. p ≡ self.now) }
    {
        Ok(Pieces {
            bytes: self.bytes.slice(..)?,
            begin: self.begin,
            step: self.step,
            cells: self.cells,
            count: self.count,
        })
    }
}
