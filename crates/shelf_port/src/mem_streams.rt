// An input and an output in memory.
ghost use Rattle.std.specs.Prelude.{◌≡◌, ◌<◌, ◌≤◌, [], length, take, drop, Some, IfOk, OnOk, OnErr, IsErrOf};
ghost use Rattle.shelf_port.specs.Files.{Rose};
ghost use Rattle.shelf_port.specs.Plan.{IsPlanned, IsInPieces};
ghost use Rattle.shelf_port.specs.Streams.{with_front, with_back, no_refusals, taken, refused};

use crate::fault::{SinkFault, SourceFault};
use crate::plan::{CallPlan, copy_from};
use crate::ports::{Sink, Source};
use crate::refusal_count::RefusalCount;
use std::alloc::Global;

/// An input in memory. It tells what is left. Of its calls those with given numbers fail.
#[derive(Debug, Drop)]
pub struct MemSource {
    bytes: Vec<u8>,
    at: usize,
    plan: CallPlan,
    faults: u64,
}

impl MemSource {
    ghost use Rattle.shelf_port.specs.MemStreams.{left_of, input_plan, read_faults_of};

    /// An input of these bytes. Its calls with the numbers `fails`, counted from 1, answer `Failed`.
    pub fn new(bytes: Vec<u8>, fails: Vec<u64>) -> Self
        ensures left { left_of result ≡ bytes.items }
        ensures failing { (input_plan result).failing ≡ fails }
        ensures made { (input_plan result).made ≡ 0 }
        ensures faults { read_faults_of result ≡ 0 }
    {
        MemSource {
            bytes,
            at: 0,
            plan: CallPlan::new(fails),
            faults: 0,
        }
    }

    /// The same input, of which one call gives at most so many bytes.
    pub fn in_pieces(self, width: usize) -> Self
        requires { 0 < width }
        ensures left { left_of result ≡ left_of self }
        ensures plan { IsInPieces width (input_plan self) (input_plan result) }
        ensures faults { read_faults_of result ≡ read_faults_of self }
    {
        MemSource {
            bytes: self.bytes,
            at: self.at,
            plan: self.plan.in_pieces(width),
            faults: self.faults,
        }
    }
}

impl Source for MemSource {
    ghost use Rattle.std.specs.Prelude.{Some};
    ghost use Rattle.shelf_port.specs.MemStreams.{left_of, input_plan, read_faults_of};

    ghost left = { λ s. Some (left_of s) };

    ghost faults = { λ s. s.faults };

    fn read(&mut self, into: &mut [u8]) -> Result<usize, SourceFault>
        ensures bound { IfOk result (λ n. n ≤ length into.new) }
        ensures bytes { IfOk result (λ n.
            Some (left_of self.old) ≡ with_front (take n into.new) (Some (left_of self.new))) }
        ensures behind { IfOk result (λ n. drop n into.new ≡ drop n into.old) }
        ensures end { IfOk result (λ n. n ≡ 0 → 0 < length into.new → left_of self.old ≡ []) }
        ensures err { OnErr result (Some (left_of self.new) ≡ Some (left_of self.old)) }

        ensures failed { IsErrOf result SourceFault.Failed →
            Rose (read_faults_of self.old) (read_faults_of self.new) }
        ensures counts { read_faults_of self.old ≤ read_faults_of self.new }

        ensures planned { IsPlanned (IsErrOf result SourceFault.Failed)
            (read_faults_of self.old) (read_faults_of self.new) (input_plan self.old) (input_plan self.new) }
        ensures width { IfOk result (λ n. n ≤ (input_plan self.old).width) }
    {
        if self.plan.next_fails() {
            self.faults = self.faults.saturating_add(1);
            return Err(SourceFault::Failed);
        }
        let count = copy_from(&self.bytes, self.at, &self.plan, into);
        self.at += count;
        Ok(count)
    }
}

/// An output in memory. It tells what was written. Of its calls those with given numbers fail.
#[derive(Debug, Drop)]
pub struct MemSink {
    written: Vec<u8>,
    plan: CallPlan,
    faults: u64,
    refusals: RefusalCount,
}

impl MemSink {
    ghost use Rattle.shelf_port.specs.MemStreams.{written_to, output_plan, write_faults_of, refusals_of};

    /// An empty output. Its calls with the numbers `fails`, counted from 1, answer `Failed`.
    pub fn new(alloc: Global, fails: Vec<u64>) -> Self
        ensures written { written_to result ≡ [] }
        ensures failing { (output_plan result).failing ≡ fails }
        ensures made { (output_plan result).made ≡ 0 }
        ensures faults { write_faults_of result ≡ 0 }
        ensures refusals { refusals_of result ≡ no_refusals }
    {
        MemSink {
            written: Vec::new(alloc),
            plan: CallPlan::new(fails),
            faults: 0,
            refusals: RefusalCount::new(),
        }
    }

    /// The same output, of which one call takes at most so many bytes.
    pub fn in_pieces(self, width: usize) -> Self
        requires { 0 < width }
        ensures written { written_to result ≡ written_to self }
        ensures plan { IsInPieces width (output_plan self) (output_plan result) }
        ensures faults { write_faults_of result ≡ write_faults_of self }
        ensures refusals { refusals_of result ≡ refusals_of self }
    {
        MemSink {
            written: self.written,
            plan: self.plan.in_pieces(width),
            faults: self.faults,
            refusals: self.refusals,
        }
    }

    /// All that was written.
    pub fn written(&self) -> &[u8]
        ensures { result.now ≡ written_to self.now }
    {
        &self.written
    }
}

impl Sink for MemSink {
    ghost use Rattle.std.specs.Prelude.{Some};
    ghost use Rattle.shelf_port.specs.MemStreams.{written_to, output_plan, write_faults_of, refusals_of};

    ghost written = { λ s. Some (written_to s) };

    ghost faults = { λ s. s.faults };

    ghost refusals = { λ s. refusals_of s };

    fn write(&mut self, bytes: &[u8]) -> Result<usize, SinkFault>
        ensures bound { IfOk result (λ n. n ≤ length bytes.now) }
        ensures progress { IfOk result (λ n. 0 < length bytes.now → 0 < n) }
        ensures ok { IfOk result (λ n. Some (written_to self.new) ≡
            with_back (Some (written_to self.old)) (take n bytes.now)) }
        ensures err { OnErr result (Some (written_to self.new) ≡ Some (written_to self.old)) }

        ensures failed { IsErrOf result SinkFault.Failed →
            Rose (write_faults_of self.old) (write_faults_of self.new) }
        ensures counts { write_faults_of self.old ≤ write_faults_of self.new }
        ensures taken { OnOk result (refusals_of self.new ≡ taken (refusals_of self.old)) }
        ensures refused { OnErr result (refusals_of self.new ≡ refused (refusals_of self.old)) }

        ensures planned { IsPlanned (IsErrOf result SinkFault.Failed)
            (write_faults_of self.old) (write_faults_of self.new) (output_plan self.old) (output_plan self.new) }
        ensures width { IfOk result (λ n. n ≤ (output_plan self.old).width) }
    {
        if self.plan.next_fails() {
            self.faults = self.faults.saturating_add(1);
            self.refusals.refuse();
            return Err(SinkFault::Failed);
        }
        let count = self.plan.part_of(bytes.len());
        match self.written.extend_from_slice(&bytes[..count]) {
            Ok(()) => {
                self.refusals.take();
                Ok(count)
            }
            Err(e) => {
                self.refusals.refuse();
                Err(SinkFault::from(e))
            }
        }
    }
}
