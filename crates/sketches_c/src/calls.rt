//! The calls from C.
ghost use Rattle.std.specs.Prelude.{◌≡◌, ◌≢◌, ◌↔◌, ◌<◌, ◌≤◌, false, [], ◌∷◌, IfSome, IsSome};
ghost use Rattle.std.specs.declared.option.Option.TheVariants.{None, Some};
ghost use Rattle.sketch_base.specs.Bag.{retained};
ghost use Rattle.sketch_base.specs.declared.error.ErrorKind.TheVariants.{InvalidArgument, InvalidData, OutOfMemory};
ghost use Rattle.sketch_kll.specs.Sketch.{empty_sketch as empty_kll};
ghost use Rattle.sketch_req.specs.Sections.{IsLegalK};
ghost use Rattle.sketch_req.specs.Sketch.{empty_sketch as empty_req};
ghost use Rattle.sketches_c.specs.Calls.{AreEnds, AreMasses, Asks, Changes, IsQuantile, IsRank, IsRead, IsWritten, ReadsNothing};
ghost use Rattle.sketches_c.specs.Codes.{code_of, no_sketch, ok};
ghost use Rattle.sketches_c.specs.Floats.{key, keys, shown};
ghost use Rattle.sketches_c.specs.Frames.{text_of};
ghost use Rattle.sketches_c.specs.Sketches.{AreUpdates, HasImage, IsCopy, IsMerge, IsUpdate, IsWeightedUpdate, accuracy_of, bag_of, emptied, image_of, is_high, is_req, k_of, n_of};
ghost use Rattle.sketches_c.specs.declared.sketch.Sketch.TheVariants.{Kll, Req};

use crate::answers::{EMPTY, NO_SKETCH, OK, OUT_OF_MEMORY, code_of, criteria};
use crate::floats::{key, numbers_in, shown};
use crate::frame::write_front;
use crate::handle::Handle;
use crate::sketch::Sketch;
use crate::state::State;
use sketch_base::common::Rank;
use sketch_base::common::random::SplitMix64;
use sketch_kll::sketch::KllSketch;
use sketch_req::RankAccuracy;
use sketch_req::sketch::ReqSketch;
use std::alloc::Global;

/// Makes an empty KLL sketch.
#[unsafe(no_mangle)]
pub extern "C" fn mz_kll_new(
    alloc: Global,
    handle: &mut Handle,
    k: u16,
    floats: bool,
    seed: u64,
) -> i32
    ensures refused { result ≢ ok → handle.new.value ≡ handle.old.value }
    ensures unfit { result ≡ code_of InvalidArgument ↔ (k < 8) }
    ensures memory { result ≢ ok → 8 ≤ k → result ≡ code_of OutOfMemory }
    ensures made { result ≡ ok → handle.new.value ≡ Some (record {
      sketch = Kll (empty_kll k false);
      coins = seed;
      floats = floats;
    }) }
{
    match KllSketch::new(alloc, k) {
        Ok(sketch) => handle.hold(
            alloc,
            State {
                sketch: Sketch::Kll(sketch),
                coins: SplitMix64::new(seed),
                floats,
            },
        ),
        Err(error) => code_of(error),
    }
}

/// Makes an empty REQ sketch, of which high ranks are exact, or low ones.
#[unsafe(no_mangle)]
pub extern "C" fn mz_req_new(
    alloc: Global,
    handle: &mut Handle,
    k: u16,
    high: bool,
    floats: bool,
    seed: u64,
) -> i32
    ensures refused { result ≢ ok → handle.new.value ≡ handle.old.value }
    ensures unfit { result ≡ code_of InvalidArgument ↔ ¬ (IsLegalK k) }
    ensures memory { result ≢ ok → IsLegalK k → result ≡ code_of OutOfMemory }
    ensures made { result ≡ ok → handle.new.value ≡ Some (record {
      sketch = Req (empty_req k (accuracy_of high));
      coins = seed;
      floats = floats;
    }) }
{
    let accuracy = if high {
        RankAccuracy::HighRank
    } else {
        RankAccuracy::LowRank
    };
    match ReqSketch::new(alloc, k, accuracy) {
        Ok(sketch) => handle.hold(
            alloc,
            State {
                sketch: Sketch::Req(sketch),
                coins: SplitMix64::new(seed),
                floats,
            },
        ),
        Err(error) => code_of(error),
    }
}

/// Frees the sketch.
#[unsafe(no_mangle)]
pub extern "C" fn mz_free(alloc: Global, handle: &mut Handle)
    ensures { handle.new.value ≡ None }
{
    *handle = Handle::empty(alloc);
}

/// Makes a copy of the sketch of `from`, with coins of its own.
#[unsafe(no_mangle)]
pub extern "C" fn mz_clone(alloc: Global, handle: &mut Handle, from: &mut Handle, seed: u64) -> i32
    ensures same { from.new.value ≡ from.old.value }
    ensures absent { from.old.value ≡ None → result ≡ no_sketch }
    ensures made { result ≡ ok → IsSome handle.new.value }
    ensures copied { result ≡ ok → IfSome from.old.value (λ s. IfSome handle.new.value (λ t.
        (IsCopy s.sketch t.sketch) × ((t.coins ≡ seed) × (t.floats ≡ s.floats)))) }
    ensures refused { result ≢ ok → handle.new.value ≡ handle.old.value }
    ensures memory { result ≢ ok → IsSome from.old.value → result ≡ code_of OutOfMemory }
{
    let Some(state) = from.take(alloc) else {
        return NO_SKETCH;
    };
    let answer = match state.sketch.clone() {
        Ok(sketch) => handle.hold(
            alloc,
            State {
                sketch,
                coins: SplitMix64::new(seed),
                floats: state.floats,
            },
        ),
        Err(_) => OUT_OF_MEMORY,
    };
    from.put(state);
    answer
}

/// Empties the sketch.
#[unsafe(no_mangle)]
pub extern "C" fn mz_reset(alloc: Global, handle: &mut Handle) -> i32
    ensures absent { handle.old.value ≡ None → (result ≡ no_sketch) × (handle.new.value ≡ None) }
    ensures emptied { IfSome handle.old.value (λ s. (result ≡ ok)
        × (handle.new.value ≡ Some (record s { sketch = emptied s.sketch }))) }
{
    let Some(mut state) = handle.take(alloc) else {
        return NO_SKETCH;
    };
    state.sketch.reset();
    handle.put(state);
    OK
}

/// What a sketch is.
#[repr(C)]
#[derive(Drop)]
pub struct Info {
    pub n: u64,
    pub retained: u64,
    pub k: u32,
    pub floats: bool,
    pub req: bool,
    /// Whether high ranks are exact.
    pub high: bool,
}

/// Tells what the sketch is.
#[unsafe(no_mangle)]
pub extern "C" fn mz_info(alloc: Global, handle: &mut Handle, info: &mut Info) -> i32
    ensures same { handle.new.value ≡ handle.old.value }
    ensures absent { handle.old.value ≡ None → (result ≡ no_sketch) × (info.new ≡ info.old) }
    ensures told { IfSome handle.old.value (λ s. (result ≡ ok) × (info.new ≡ record {
      n = n_of s.sketch;
      retained = retained (bag_of s.sketch);
      k = k_of s.sketch;
      floats = s.floats;
      req = is_req s.sketch;
      high = is_high s.sketch;
    })) }
{
    let Some(state) = handle.take(alloc) else {
        return NO_SKETCH;
    };
    let sketch = &state.sketch;
    *info = Info {
        n: sketch.n(),
        retained: sketch.num_retained(),
        k: sketch.k() as u32,
        floats: state.floats,
        req: sketch.is_req(),
        high: sketch.is_high(),
    };
    handle.put(state);
    OK
}

/// Takes in an item.
#[unsafe(no_mangle)]
pub extern "C" fn mz_update(alloc: Global, handle: &mut Handle, floats: bool, item: i64) -> i32
    ensures { Changes floats (item ∷ []) handle.old.value handle.new.value result
        (IsUpdate (key floats item) result) }
{
    let mut state = match handle.open(alloc, floats, &[item]) {
        Ok(state) => state,
        Err(refusal) => return refusal,
    };
    let State { sketch, coins, .. } = &mut *state;
    let answer = sketch.update(key(floats, item), coins);
    handle.put(state);
    answer
}

/// Takes in all items, or none.
#[unsafe(no_mangle)]
pub extern "C" fn mz_update_all(
    alloc: Global,
    handle: &mut Handle,
    floats: bool,
    items: &[i64],
) -> i32
    ensures { Changes floats items.now handle.old.value handle.new.value result
        (AreUpdates (keys floats items.now) result) }
{
    let mut state = match handle.open(alloc, floats, items) {
        Ok(state) => state,
        Err(refusal) => return refusal,
    };
    let State { sketch, coins, .. } = &mut *state;
    let answer = if floats {
        sketch.update_floats(alloc, items, coins)
    } else {
        sketch.update_all(items, coins)
    };
    handle.put(state);
    answer
}

/// Takes in an item that stands for as many equal ones as its weight says.
#[unsafe(no_mangle)]
pub extern "C" fn mz_update_weighted(
    alloc: Global,
    handle: &mut Handle,
    floats: bool,
    item: i64,
    weight: u64,
) -> i32
    ensures { Changes floats (item ∷ []) handle.old.value handle.new.value result
        (IsWeightedUpdate (key floats item) weight result) }
{
    let mut state = match handle.open(alloc, floats, &[item]) {
        Ok(state) => state,
        Err(refusal) => return refusal,
    };
    let State { sketch, coins, .. } = &mut *state;
    let answer = sketch.update_weighted(key(floats, item), weight, coins);
    handle.put(state);
    answer
}

/// Takes in what another sketch of the same family holds.
#[unsafe(no_mangle)]
pub extern "C" fn mz_merge(alloc: Global, handle: &mut Handle, from: &mut Handle) -> i32
    ensures same { from.new.value ≡ from.old.value }
    ensures absent { from.old.value ≡ None
        → (result ≡ no_sketch) × (handle.new.value ≡ handle.old.value) }
    ensures merged { IfSome from.old.value (λ other. Changes other.floats [] handle.old.value
        handle.new.value result (IsMerge other.sketch result)) }
{
    let Some(other) = from.take(alloc) else {
        return NO_SKETCH;
    };
    let answer = match handle.open(alloc, other.floats, &[]) {
        Ok(mut state) => {
            let State { sketch, coins, .. } = &mut *state;
            let answer = sketch.merge(&other.sketch, coins);
            handle.put(state);
            answer
        }
        Err(refusal) => refusal,
    };
    from.put(other);
    answer
}

/// Tells the rank of an item: a weight out of a total.
#[unsafe(no_mangle)]
pub extern "C" fn mz_rank(
    alloc: Global,
    handle: &mut Handle,
    floats: bool,
    item: i64,
    inclusive: bool,
    weight: &mut u64,
    total: &mut u64,
) -> i32
    ensures same { handle.new.value ≡ handle.old.value }
    ensures kept { result ≢ ok → (weight.new ≡ weight.old) × (total.new ≡ total.old) }
    ensures rank { Asks floats (item ∷ []) handle.old.value result (λ q.
        IsRank q (key floats item) inclusive result weight.new total.new) }
{
    let state = match handle.open(alloc, floats, &[item]) {
        Ok(state) => state,
        Err(refusal) => return refusal,
    };
    let found = state.sketch.rank(&key(floats, item), criteria(inclusive));
    handle.put(state);
    let Some(rank) = found else { return EMPTY };
    *weight = rank.weight;
    *total = rank.total;
    OK
}

/// Finds the item at a fraction.
#[unsafe(no_mangle)]
pub extern "C" fn mz_quantile(
    alloc: Global,
    handle: &mut Handle,
    floats: bool,
    weight: u64,
    total: u64,
    inclusive: bool,
    item: &mut i64,
) -> i32
    ensures same { handle.new.value ≡ handle.old.value }
    ensures kept { result ≢ ok → item.new ≡ item.old }
    ensures found { Asks floats [] handle.old.value result (λ q. IsQuantile q (record {
      weight = weight;
      total = total;
    }) inclusive result (shown floats item.new)) }
{
    let state = match handle.open(alloc, floats, &[]) {
        Ok(state) => state,
        Err(refusal) => return refusal,
    };
    let found = state
        .sketch
        .quantile(Rank { weight, total }, criteria(inclusive));
    handle.put(state);
    match found {
        Ok(Some(number)) => {
            *item = shown(floats, number);
            OK
        }
        Ok(None) => EMPTY,
        Err(error) => code_of(error),
    }
}

/// Tells the weights of a cdf over points, or by `steps` of a pmf: one for each point and one more.
#[unsafe(no_mangle)]
pub extern "C" fn mz_masses(
    alloc: Global,
    handle: &mut Handle,
    floats: bool,
    points: &[i64],
    inclusive: bool,
    steps: bool,
    weights: &mut [u64],
) -> i32
    ensures same { handle.new.value ≡ handle.old.value }
    ensures kept { result ≢ ok → weights.new ≡ weights.old }
    ensures masses { Asks floats points.now handle.old.value result (λ q.
        AreMasses q (keys floats points.now) inclusive steps result weights.new) }
{
    let state = match handle.open(alloc, floats, points) {
        Ok(state) => state,
        Err(refusal) => return refusal,
    };
    let sketch = &state.sketch;
    let answer = if !floats {
        sketch.hand_masses(points, inclusive, steps, weights)
    } else {
        match numbers_in(alloc, points) {
            Ok(numbers) => sketch.hand_masses(&numbers, inclusive, steps, weights),
            Err(_) => OUT_OF_MEMORY,
        }
    };
    handle.put(state);
    answer
}

/// Tells the extremes of the stream.
#[unsafe(no_mangle)]
pub extern "C" fn mz_ends(
    alloc: Global,
    handle: &mut Handle,
    floats: bool,
    least: &mut i64,
    greatest: &mut i64,
) -> i32
    ensures same { handle.new.value ≡ handle.old.value }
    ensures kept { result ≢ ok → (least.new ≡ least.old) × (greatest.new ≡ greatest.old) }
    ensures ends { Asks floats [] handle.old.value result (λ q.
        AreEnds q result (shown floats least.new) (shown floats greatest.new)) }
{
    let state = match handle.open(alloc, floats, &[]) {
        Ok(state) => state,
        Err(refusal) => return refusal,
    };
    let ends = state.sketch.ends();
    handle.put(state);
    let Some((low, high)) = ends else {
        return EMPTY;
    };
    *least = shown(floats, low);
    *greatest = shown(floats, high);
    OK
}

/// Writes the image, in its frame unless it is to be plain.
#[unsafe(no_mangle)]
pub extern "C" fn mz_serialize(
    alloc: Global,
    handle: &mut Handle,
    plain: bool,
    buffer: &mut [u8],
    size: &mut u64,
) -> i32
    ensures same { handle.new.value ≡ handle.old.value }
    ensures absent { handle.old.value ≡ None → result ≡ no_sketch }
    ensures written { IfSome handle.old.value (λ s.
        IsWritten (HasImage s.sketch) (text_of plain (is_req s.sketch) s.floats (image_of s.sketch))
        buffer.old result buffer.new size.new) }
{
    let Some(state) = handle.take(alloc) else {
        return NO_SKETCH;
    };
    let text = state.text(alloc, plain);
    handle.put(state);
    match text {
        Ok(text) => write_front(&text, buffer, size),
        Err(error) => code_of(error),
    }
}

/// Reads an image of this family, framed or plain, of which the bytes hold no more.
#[unsafe(no_mangle)]
pub extern "C" fn mz_deserialize(
    alloc: Global,
    handle: &mut Handle,
    req: bool,
    bytes: &[u8],
    seed: u64,
) -> i32
    ensures made { result ≡ ok → IsSome handle.new.value }
    ensures read { result ≡ ok → IfSome handle.new.value (IsRead req bytes.now seed) }
    ensures refused { result ≢ ok → handle.new.value ≡ handle.old.value }
    ensures unread { result ≡ code_of InvalidData → ReadsNothing req bytes.now seed }
    ensures kind { result ≢ ok → result ≢ code_of InvalidData → result ≡ code_of OutOfMemory }
{
    match State::read(alloc, req, bytes, seed) {
        Ok(state) => handle.hold(alloc, state),
        Err(error) => code_of(error),
    }
}
