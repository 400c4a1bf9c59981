//! What is told behind a finding: other readings and octets that are wrong, at the events that the exchange names.

use crate::reported::Case;
use exchange_check::{Exchange, Finding, Leg, STAYS_MOST, Stay};
use explain_fields::Compared;
use std::alloc::AllocError;

impl Case<'_> {
    /// Appends what else is wrong with readings of an exchange, in lines that begin with four blanks.
    pub(crate) fn push_readings(
        &self,
        text: &mut String,
        found: Finding,
        exchange: &Exchange,
    ) -> Result<(), AllocError> {
        self.push_leg(text, found, &exchange.sync, "Sync")?;
        self.push_leg(text, found, &exchange.request, "Delay_Req")
    }

    /// Appends how the message of an event and others of an exchange differ from those that ports and clocks write.
    pub(crate) fn push_octets(
        &self,
        text: &mut String,
        event: u64,
        exchange: &Exchange,
    ) -> Result<(), AllocError> {
        self.push_message(text, event)?;
        self.push_others(text, event, exchange)
    }

    /// Appends what else is wrong with readings of a journey.
    fn push_leg(
        &self,
        text: &mut String,
        found: Finding,
        leg: &Leg,
        name: &str,
    ) -> Result<(), AllocError> {
        self.push_reading(text, found, leg.arrived.number)?;
        self.push_reading(text, found, leg.departed.number)?;
        for Stay { entered, left } in leg.stays.iter().rev().flatten() {
            self.push_reading(text, found, entered.number)?;
            self.push_reading(text, found, left.number)?;
            if left.reading < entered.reading {
                let (entered, left) = (entered.number, left.number);
                self.push_other(text, found, Finding::Falls { entered, left })?;
            }
        }
        push_cut(text, leg, name)
    }

    /// Appends what is wrong with the reading of an event, where something is.
    fn push_reading(
        &self,
        text: &mut String,
        found: Finding,
        event: u64,
    ) -> Result<(), AllocError> {
        match self.known.evidence.wrong_reading_at(event) {
            Some(wrong) => self.push_other(
                text,
                found,
                Finding::WrongReading {
                    event,
                    set: wrong.set,
                },
            ),
            None => Ok(()),
        }
    }

    /// Appends something else than is found.
    fn push_other(
        &self,
        text: &mut String,
        found: Finding,
        other: Finding,
    ) -> Result<(), AllocError> {
        if other == found {
            return Ok(());
        }
        self.push_sentence(text, other)
    }

    /// Appends how messages of the exchange differ, but for that of an event.
    fn push_others(
        &self,
        text: &mut String,
        but: u64,
        exchange: &Exchange,
    ) -> Result<(), AllocError> {
        self.push_messages(text, but, &exchange.sync, "Sync")?;
        if let Some(follow) = exchange.follow {
            self.push_differing(text, but, follow)?;
        }
        self.push_messages(text, but, &exchange.request, "Delay_Req")?;
        self.push_differing(text, but, exchange.request.arrived.number)
    }

    /// The same of a journey.
    fn push_messages(
        &self,
        text: &mut String,
        but: u64,
        leg: &Leg,
        name: &str,
    ) -> Result<(), AllocError> {
        self.push_differing(text, but, leg.departed.number)?;
        for stay in leg.stays.iter().rev().flatten() {
            self.push_differing(text, but, stay.left.number)?;
        }
        push_cut(text, leg, name)
    }

    /// The same of an event.
    fn push_differing(&self, text: &mut String, but: u64, number: u64) -> Result<(), AllocError> {
        let known = self.known;
        match known.checker.line_at(number) {
            Some(line) if number != but && !line.writes_right => self.push_message(text, number),
            _ => Ok(()),
        }
    }

    /// Appends how the message of an event differs from the one that its port or its clock writes.
    fn push_message(&self, text: &mut String, number: u64) -> Result<(), AllocError> {
        let known = self.known;
        let named = known.named(number);
        let Some(octets) = known.evidence.octets_at(known.checker, number) else {
            return Ok(());
        };
        let compared = match known.checker.message_at(number) {
            Some(wanted) => Compared::of(&wanted, octets.as_slice()),
            None => None,
        };
        match compared {
            Some(compared) => compared.push(text, &named),
            // A Follow_Up of no Sync: no port writes it.
            None => write!(
                text,
                "    {named}: no two-step Sync was sent before it, so no octets are right\n"
            ),
        }
    }
}

/// Appends that not all stays of a message were looked at for more than is found, where that is so.
fn push_cut(text: &mut String, leg: &Leg, name: &str) -> Result<(), AllocError> {
    match leg.earlier {
        Some(_) => write!(
            text,
            "    of the stays of the {name} only the last {STAYS_MOST} were looked at for more\n"
        ),
        None => Ok(()),
    }
}
