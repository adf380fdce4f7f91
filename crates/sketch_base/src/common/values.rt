//! Whole numbers as the little-endian bytes of their type, as images of both families hold them.
ghost use Rattle.std.specs.Prelude.{◌≡◌, ℕ, ◌≤◌, List, ◌++◌, length, Option, IsSome, IfOk, IfErr, OnOk, OnErr};
ghost use Rattle.sketch_base.specs.declared.error.ErrorKind.TheVariants.{InvalidData, OutOfMemory};
ghost use Rattle.sketch_base.specs.Spelling.{bytes_of, Begins};

use crate::codec::{SketchBytes, SketchSlice};
use crate::error::Error;

/// A whole number that is written as the bytes of its type.
pub trait WholeNumber: Sized {
    /// The bytes of a value. A number that its type can't hold has none.
    ghost spelling: { Self → Option (List ℕ) };

    /// Returns the number of bytes of the spelling.
    fn size(&self) -> usize
        ensures spelled { IsSome (spelling self.now) }
        ensures size { result ≡ length (bytes_of spelling self.now) };

    /// Writes the spelling. An error is `OutOfMemory`, and the buffer then still begins with what
    /// it held.
    fn write_le(&self, bytes: &mut SketchBytes) -> Result<(), Error>
        ensures spelled { IsSome (spelling self.now) }
        ensures appended { OnOk result (bytes.new ≡ bytes.old ++ bytes_of spelling self.now) }
        ensures err { OnErr result ((more : List ℕ) × (bytes.new ≡ bytes.old ++ more)) }
        ensures memory { IfErr result (λ e. e ≡ OutOfMemory) };

    /// Reads a value that the input begins with. Returns `InvalidData` exactly if it begins with no
    /// spelling; the input may then have advanced.
    fn read_le(input: &mut SketchSlice<'_>) -> Result<Self, Error>
        ensures found { IfOk result (λ x. Begins spelling input.old x input.new) }
        ensures refused { OnErr result
            ((x : Self) (rest : List ℕ) → ¬ Begins spelling input.old x rest) }
        ensures kind { IfErr result (λ e. e ≡ InvalidData) };

    /// No text begins with two different spellings.
    ghost is_prefix_free: { (x y : Self) (text rest others : List ℕ) →
        Begins spelling text x rest → Begins spelling text y others → spelling x ≡ spelling y };

    /// A spelling has at least one byte.
    ghost is_some_bytes: { (x : Self) → IsSome (spelling x) → 1 ≤ length (bytes_of spelling x) };
}

impl WholeNumber for i32 {
    ghost use Rattle.sketch_base.specs.Spelling.{i32_spelling};
    ghost use Rattle.sketch_base.specs.NumberSpellings.{i32_prefix_free, i32_some};

    ghost spelling = { i32_spelling };

    ghost is_prefix_free = { i32_prefix_free };

    ghost is_some_bytes = { i32_some };

    fn size(&self) -> usize {
        self.to_le_bytes().len()
    }

    fn write_le(&self, bytes: &mut SketchBytes) -> Result<(), Error> {
        bytes.write_i32_le(*self)
    }

    fn read_le(input: &mut SketchSlice<'_>) -> Result<Self, Error> {
        input.read_i32_le()
    }
}

impl WholeNumber for i64 {
    ghost use Rattle.sketch_base.specs.Spelling.{i64_spelling};
    ghost use Rattle.sketch_base.specs.SpellingLaws.{i64_prefix_free, i64_some};

    ghost spelling = { i64_spelling };

    ghost is_prefix_free = { i64_prefix_free };

    ghost is_some_bytes = { i64_some };

    fn size(&self) -> usize {
        self.to_le_bytes().len()
    }

    fn write_le(&self, bytes: &mut SketchBytes) -> Result<(), Error> {
        bytes.write_i64_le(*self)
    }

    fn read_le(input: &mut SketchSlice<'_>) -> Result<Self, Error> {
        input.read_i64_le()
    }
}

impl WholeNumber for u32 {
    ghost use Rattle.sketch_base.specs.Spelling.{u32_spelling};
    ghost use Rattle.sketch_base.specs.NumberSpellings.{u32_prefix_free, u32_some};

    ghost spelling = { u32_spelling };

    ghost is_prefix_free = { u32_prefix_free };

    ghost is_some_bytes = { u32_some };

    fn size(&self) -> usize {
        self.to_le_bytes().len()
    }

    fn write_le(&self, bytes: &mut SketchBytes) -> Result<(), Error> {
        bytes.write_u32_le(*self)
    }

    fn read_le(input: &mut SketchSlice<'_>) -> Result<Self, Error> {
        input.read_u32_le()
    }
}

impl WholeNumber for u64 {
    ghost use Rattle.sketch_base.specs.Spelling.{u64_spelling};
    ghost use Rattle.sketch_base.specs.NumberSpellings.{u64_prefix_free, u64_some};

    ghost spelling = { u64_spelling };

    ghost is_prefix_free = { u64_prefix_free };

    ghost is_some_bytes = { u64_some };

    fn size(&self) -> usize {
        self.to_le_bytes().len()
    }

    fn write_le(&self, bytes: &mut SketchBytes) -> Result<(), Error> {
        bytes.write_u64_le(*self)
    }

    fn read_le(input: &mut SketchSlice<'_>) -> Result<Self, Error> {
        input.read_u64_le()
    }
}
