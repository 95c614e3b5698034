// The text of a report. Each part writes its own line, which no derive would.
ghost use Rattle.std.specs.Prelude.{◌≡◌, ◌++◌, IfOk, Some, string_bytes};
ghost use Rattle.reports.specs.Report.{counts_line, fault_line, header_line, layer_name, refused_line, report_text, verdict_line};

use crate::report::{Header, Judged, Layer, RefusedCard, Stop, TrayReport};
use std::alloc::Global;
use std::fmt;

impl fmt::Display for Header {
    ghost output = { λ h. Some (header_line h) };

    fn fmt<W: fmt::Write>(&self, f: &mut fmt::Formatter<W>) -> fmt::Result {
        write!(
            f,
            "field {} levels {} words {} cards {}\n",
            self.field, self.levels, self.words, self.cards
        )
    }
}

impl fmt::Display for RefusedCard {
    ghost output = { λ c. Some (refused_line c) };

    fn fmt<W: fmt::Write>(&self, f: &mut fmt::Formatter<W>) -> fmt::Result {
        write!(
            f,
            "card {} at {} refused {} pool\n",
            self.ordinal,
            self.offset,
            self.refusal.number()
        )
    }
}

impl fmt::Display for Layer {
    ghost output = { λ l. Some (layer_name l) };

    fn fmt<W: fmt::Write>(&self, f: &mut fmt::Formatter<W>) -> fmt::Result {
        match *self {
            Layer::Reader => write!(f, "reader"),
            Layer::Policy => write!(f, "policy"),
        }
    }
}

impl fmt::Display for Stop {
    ghost output = { λ s. Some (fault_line s) };

    fn fmt<W: fmt::Write>(&self, f: &mut fmt::Formatter<W>) -> fmt::Result {
        write!(
            f,
            "fault {} {} at {}\n",
            self.refusal.number(),
            self.layer,
            self.offset
        )
    }
}

// The counts and the verdict.
impl fmt::Display for Judged {
    ghost output = { λ j. Some (counts_line j.held j.turned ++ verdict_line j.verdict) };

    fn fmt<W: fmt::Write>(&self, f: &mut fmt::Formatter<W>) -> fmt::Result {
        write!(
            f,
            "held {} turned {}\n{}\n",
            self.held, self.turned, self.verdict
        )
    }
}

impl fmt::Display for TrayReport {
    ghost output = { λ r. Some (report_text r) };

    fn fmt<W: fmt::Write>(&self, f: &mut fmt::Formatter<W>) -> fmt::Result {
        if let Some(header) = self.header {
            write!(f, "{header}")?;
        }
        for card in self.refused.as_slice() {
            write!(f, "{card}")?;
        }
        match self.conclusion {
            Ok(judged) => write!(f, "{judged}"),
            Err(stop) => write!(f, "{stop}"),
        }
    }
}

// The text of a report.
pub fn report_text(heap: Global, report: &TrayReport) -> Result<String, fmt::Error>
    ensures { IfOk result (λ s. string_bytes s ≡ report_text report.now) }
{
    Ok(report.to_string(heap)?)
}
