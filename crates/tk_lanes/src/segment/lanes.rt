//! Converts eight stamps at a time.
ghost use Rattle.std.specs.Prelude.{◌≡◌, ◌+◌, ◌≤◌, length, map};
ghost use Rattle.std.specs.Simd.Lanes.{put_chunk, Each1};
ghost use Rattle.tk_clock.specs.State.{ReadBase};
ghost use Rattle.tk_clock.specs.declared.clock_id.ClockId.{ClockId};
ghost use Rattle.tk_lanes.specs.Batch.{IsFilled};
ghost use Rattle.tk_lanes.specs.Segment.{lane_count, nanos_after, IsEightConverted, IsFitting, IsSegment};

use super::{LANES, Segment};
use std::simd::prelude::*;

impl Segment {
    /// Converts the stamps starting at index `first`, eight at a time, as long as all eight are
    /// ahead and within the span. Returns the index of the first stamp that isn't converted.
    ///
    /// The loop does nothing else, so that all its values stay in registers. If a list is larger
    /// than the caches, a shorter loop lets the processor wait for more cache lines at a time.
    #[inline(always)]
    pub(crate) fn convert_ahead(self, stamps: &[u64], out: &mut [u64], first: usize) -> usize
        requires fitting { IsFitting self }
        requires same { length stamps.now ≡ length out.old }
        requires inside { first ≤ length stamps.now }
        ensures order { first ≤ result }
        ensures inside { result ≤ length stamps.now }
        ensures filled { (base : ReadBase) (clock : ClockId) → IsSegment base clock self →
            IsFilled base clock stamps.now first result out.old out.new }
    {
        let mut at = first;
        'eights: while stamps.len() - at >= LANES && self.converts_ahead(stamps, out, at) {
            at += LANES;
        }
        at
    }

    /// Converts the eight stamps starting at index `at`, unless one is behind, above the mask or
    /// beyond the span.
    ///
    /// One test of the OR of the lanes covers all of them, because no lane is greater than the OR.
    #[inline(always)]
    fn converts_ahead(self, stamps: &[u64], out: &mut [u64], at: usize) -> bool
        requires fitting { IsFitting self }
        requires same { length stamps.now ≡ length out.old }
        requires inside { at + lane_count ≤ length stamps.now }
        ensures { IsEightConverted self stamps.now at out.old out.new result }
    {
        let ahead = u64x8::from_slice(&stamps[at..]) - u64x8::splat(self.last);
        if ahead.reduce_or() > self.ahead {
            return false;
        }
        self.write(ahead, out, at);
        true
    }

    /// Converts the eight stamps starting at index `at`, unless one is above the mask or beyond the
    /// span.
    #[inline(always)]
    pub(crate) fn converts(self, stamps: &[u64], out: &mut [u64], at: usize) -> bool
        requires fitting { IsFitting self }
        requires same { length stamps.now ≡ length out.old }
        requires inside { at + lane_count ≤ length stamps.now }
        ensures { IsEightConverted self stamps.now at out.old out.new result }
    {
        let stamp = u64x8::from_slice(&stamps[at..]);
        if stamp.reduce_or() > self.mask {
            return false;
        }
        let gap = (stamp - u64x8::splat(self.last)) & u64x8::splat(self.mask);
        let behind = gap.simd_gt(u64x8::splat(self.half));
        let cycles = behind.select(u64x8::splat(0), gap);
        // beyond the span a sum has its top bit set
        let reach = cycles + u64x8::splat((1 << 63) - 1 - self.span);
        if reach.reduce_or() >= 1 << 63 {
            return false;
        }
        self.write(cycles, out, at);
        true
    }

    /// Writes the clock's time for eight lanes, starting at index `at`. `cycles` contains the
    /// number of cycles of each lane, none of them beyond the span.
    #[inline(always)]
    fn write(self, cycles: u64x8, out: &mut [u64], at: usize)
        requires fitting { IsFitting self }
        requires near { Each1 (λ gap. gap ≤ self.span) cycles }
        requires lanes { length cycles ≡ lane_count }
        requires inside { at + lane_count ≤ length out.old }
        ensures { out.new ≡ put_chunk at out.old (map (nanos_after self) cycles) }
    {
        self.nanos(cycles).copy_to_slice(&mut out[at..]);
    }

    /// Returns the clock's time in eight lanes, in ns. `cycles` contains the number of cycles of
    /// each lane, none of them beyond the span.
    ///
    /// With `cycles = high * 2^32 + low`, the product has two parts, each of 64 bits. A shift to
    /// the left by `32 - shift` is part of the first factor, because the rattle backend shifts
    /// lanes by a variable one after the other:
    ///
    ///     (cycles * mult + frac) >> shift
    ///         = high * (mult << (32 - shift)) + ((low * mult + frac) >> shift)
    ///
    /// If the high halves of all lanes are 0, their product is left out.
    #[inline(always)]
    fn nanos(self, cycles: u64x8) -> u64x8
        requires fitting { IsFitting self }
        requires near { Each1 (λ gap. gap ≤ self.span) cycles }
        requires lanes { length cycles ≡ lane_count }
        ensures { result ≡ map (nanos_after self) cycles }
    {
        let mult = u64::from(self.mult);
        let low = (cycles & u64x8::splat(0xffff_ffff)) * u64x8::splat(mult);
        let rest = (low + u64x8::splat(self.frac)) >> u64x8::splat(u64::from(self.shift));
        let nanos = rest + u64x8::splat(self.base);
        if cycles.reduce_or() < 1 << 32 {
            return nanos;
        }
        let high = (cycles >> u64x8::splat(32)) * u64x8::splat(mult << (32 - self.shift));
        high + nanos
    }
}
