//! The reports to an observer of a copy, which only contracts read.
ghost use Rattle.std.specs.Prelude.{◌≡◌, List, [], ◌∷◌};
ghost use Rattle.std.specs.Borrow.{ftrue};
ghost use Rattle.uda50_copy.specs.Report.{CopyReport, reached, lost, begun, given, skipped, reports_code};

use crate::map::BlockMap;
use std::marker::Model;

/// Consecutive blocks, from `start` up to `end`.
#[derive(Clone, Copy, Debug)]
pub(crate) struct BlockSpan {
    pub(crate) start: u32,
    pub(crate) end: u32,
}

/// The reports that an observer got, the newest first. It takes no memory, and its methods do nothing at run time.
#[derive(Drop)]
pub struct ReportTrace {
    pub ghost reports: { List CopyReport } by { reports_code },
}

impl Model for ReportTrace {
    ghost also_owns = { λ _. ftrue };
}

impl ReportTrace {
    /// Returns the trace of an observer that got no report.
    pub fn new() -> ReportTrace
        ensures { result ≡ record { reports = [] } }
    {
        ReportTrace {}
    }

    // Returns the trace of a record that begins with a map.
    #[inline(always)]
    pub(crate) fn begun(_map: &BlockMap) -> ReportTrace
        ensures { result ≡ record { reports = begun _map.now ∷ [] } }
    {
        ReportTrace {}
    }

    // Returns this trace with one more range that is given to a copy.
    #[inline(always)]
    fn then_given(&self, _span: &BlockSpan) -> ReportTrace
        ensures { result ≡ record { reports = given _span.now.start _span.now.end ∷ self.now.reports } }
    {
        ReportTrace {}
    }

    // Returns this trace with one more range that is skipped.
    #[inline(always)]
    fn then_skipped(&self, _span: &BlockSpan) -> ReportTrace
        ensures { result ≡ record { reports = skipped _span.now.start _span.now.end ∷ self.now.reports } }
    {
        ReportTrace {}
    }

    // Notes that blocks are given to a copy.
    #[inline(always)]
    pub(crate) fn given(&mut self, span: &BlockSpan)
        ensures { self.new ≡ record { reports = given span.now.start span.now.end ∷ self.old.reports } }
    {
        *self = self.then_given(span);
    }

    // Notes that blocks are skipped.
    #[inline(always)]
    pub(crate) fn skipped(&mut self, span: &BlockSpan)
        ensures { self.new ≡ record { reports = skipped span.now.start span.now.end ∷ self.old.reports } }
    {
        *self = self.then_skipped(span);
    }

    // Returns this trace with one more report that blocks are done.
    #[inline(always)]
    fn then_reached(&self, _end: &u32) -> ReportTrace
        ensures { result ≡ record { reports = reached _end.now ∷ self.now.reports } }
    {
        ReportTrace {}
    }

    // Returns this trace with one more report of a lost block.
    #[inline(always)]
    fn then_lost(&self, _block: &u32) -> ReportTrace
        ensures { result ≡ record { reports = lost _block.now ∷ self.now.reports } }
    {
        ReportTrace {}
    }

    /// Notes the report that all blocks before `end` are done.
    #[inline(always)]
    pub fn reached(&mut self, end: u32)
        ensures { self.new ≡ record { reports = reached end ∷ self.old.reports } }
    {
        *self = self.then_reached(&end);
    }

    /// Notes the report that a block is lost.
    #[inline(always)]
    pub fn lost(&mut self, block: u32)
        ensures { self.new ≡ record { reports = lost block ∷ self.old.reports } }
    {
        *self = self.then_lost(&block);
    }
}
