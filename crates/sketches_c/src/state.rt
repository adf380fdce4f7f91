//! What a handle points to.
ghost use Rattle.std.specs.Prelude.{◌≡◌, ◌≢◌, IsErrOf, IfOk, IfErr};
ghost use Rattle.sketch_base.specs.declared.error.ErrorKind.TheVariants.{InvalidArgument, InvalidData};
ghost use Rattle.sketches_c.specs.Calls.{IsRead, ReadsNothing};
ghost use Rattle.sketches_c.specs.Frames.{text_of};
ghost use Rattle.sketches_c.specs.Sketches.{HasImage, image_of, is_req};

use crate::frame::{framed, unframed};
use crate::sketch::Sketch;
use sketch_base::common::random::SplitMix64;
use sketch_base::error::Error;
use std::alloc::Global;

/// A sketch with its source of coins.
#[derive(Drop)]
pub struct State {
    pub sketch: Sketch,
    pub coins: SplitMix64,
    /// Whether the items stand for floats.
    pub floats: bool,
}

impl State {
    /// Returns the bytes of the image, in its frame unless it is to be plain.
    pub(crate) fn text(&self, alloc: Global, plain: bool) -> Result<Vec<u8>, Error>
        ensures text { IfOk result (λ v. v.items
            ≡ text_of plain (is_req self.now.sketch) self.now.floats (image_of self.now.sketch)) }
        ensures unfit { IsErrOf result InvalidArgument → ¬ HasImage self.now.sketch }
        ensures kind { IfErr result (λ e. e ≢ InvalidData) }
    {
        let image = self.sketch.serialize()?;
        if plain {
            return Ok(image);
        }
        framed(alloc, self.sketch.is_req(), self.floats, &image)
    }

    /// Returns what the bytes hold an image of, with coins from the seed.
    #[tactic(auto, using(crate::proofs::OneRead::none_framed, crate::proofs::OneRead::none_held))]
    pub(crate) fn read(alloc: Global, req: bool, bytes: &[u8], seed: u64) -> Result<State, Error>
        ensures read { IfOk result (IsRead req bytes.now seed) }
        ensures unread { IfErr result (λ e. e ≡ InvalidData → ReadsNothing req bytes.now seed) }
        ensures kind { IfErr result (λ e. e ≢ InvalidArgument) }
    {
        let (image, floats) = unframed(bytes, req)?;
        let mut coins = SplitMix64::new(seed);
        let sketch = Sketch::deserialize(alloc, req, image, &mut coins)?;
        Ok(State {
            sketch,
            coins,
            floats,
        })
    }
}
