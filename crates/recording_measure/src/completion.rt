//! Reports for whoever goes on with them, in place of their texts.

ghost use Rattle.std.specs.Prelude.{◌≡◌, ◌∷◌, [], true, length, List, OnOk};
ghost use Rattle.recording_measure.specs.Made.{Measured};
ghost use Rattle.recording_measure.specs.Fresh.{IsFresh, hands_on};
ghost use Rattle.recording_measure.specs.Inner.Handing.{begun_handing};
ghost use Rattle.recording_measure.specs.Inner.Hearing.{made_of};

use crate::form::Form;
use crate::reports::Made;
use recording_lines::Half;
use slave_port::{LastExchange, Report};
use std::alloc::{AllocError, Global};

/// A report that was measured.
#[derive(Clone, Copy, Debug)]
pub struct Completion {
    /// Which half completed it.
    pub by: Half,
    /// The line or packet that did, counted from 1.
    pub line: u64,
    /// The two results, and the lines that they are of.
    pub report: Report,
    /// The exchange that it was made of, which is there.
    pub exchange: Option<LastExchange>,
}

/// Whether reports are handed on, and how many were.
#[derive(Clone, Copy)]
pub(crate) struct Handing {
    is_asked: bool,
    handed: u64,
}

/// Reports that weren't handed on yet, where they are asked for.
#[derive(Drop)]
pub(crate) struct Fresh {
    handing: Handing,
    /// The newest is the last.
    completions: Vec<Completion>,
}

/// Whether reports are handed on in this form.
fn hands_on(form: Form) -> bool
    ensures { result ≡ hands_on form }
{
    match form {
        Form::Completions => true,
        Form::Json | Form::Table | Form::FullJson | Form::FullTable | Form::Sums => false,
    }
}

impl Fresh {
    /// No report came yet.
    pub(crate) fn new(alloc: Global, form: Form) -> Fresh
        ensures fresh { IsFresh [] result }
        ensures handing { result.handing ≡ begun_handing form }
    {
        Fresh {
            handing: Handing {
                is_asked: hands_on(form),
                handed: 0,
            },
            completions: Vec::new(alloc),
        }
    }

    /// Takes one more report.
    pub(crate) fn take(&mut self, made: &Made<'_>) -> Result<(), AllocError>
        ensures fresh { (earlier : List Measured) → IsFresh earlier self.old
            → OnOk result (IsFresh (made_of made.now ∷ earlier) self.new) }
        ensures handing { self.new.handing ≡ self.old.handing }
    {
        if self.handing.is_asked {
            let measured = &made.measured;
            let completion = Completion {
                by: measured.by,
                line: measured.line,
                report: measured.report,
                exchange: made.exchange,
            };
            self.completions.push(completion)?;
        }
        Ok(())
    }

    /// Those that weren't handed on, in order.
    pub(crate) fn completions(&self) -> &[Completion]
        ensures { result.now ≡ self.now.completions.items }
    {
        &self.completions
    }

    /// They are handed on. More than can be counted would be want of memory.
    pub(crate) fn hand_on(&mut self) -> Result<(), AllocError>
        ensures { (all : List Measured) → IsFresh all self.old → self.old.handing.is_asked ≡ true
            → OnOk result (IsFresh all self.new × (self.new.handing ≡ record { is_asked = true; handed = length all })) }
    {
        let Some(handed) = self
            .handing
            .handed
            .checked_add(self.completions.len() as u64)
        else {
            return Err(AllocError);
        };
        self.handing.handed = handed;
        self.completions.clear();
        Ok(())
    }
}
