//! Who else is there, in words.
ghost use Rattle.std.specs.Prelude.{◌≡◌, Some};
ghost use Rattle.recording_summary.specs.Bewares.{is_anybody};
ghost use Rattle.recording_words.specs.Others.{parted, further_text, sender_text, listed_parts, senders_text};
ghost use Rattle.recording_words.specs.Inner.Named.{comma_text, is_named};
ghost use Rattle.recording_words.specs.Others.{domain_text, named_parts, unnamed, domains_text, call_name, callers_text};

use datagram_text::Identity;
use recording_summary::{Sender, Senders};
use std::fmt;
use std::fmt::{Display, Formatter};

/// How many ports are listed by themselves.
const LISTED_MOST: usize = 8;

/// How many domains there can be.
pub(crate) const DOMAINS: usize = 256;

/// How many domains are named.
const NAMED_MOST: u64 = 8;

/// What stands in front of a part of a list.
#[tactic(auto, unfolding(crate::specs::Inner::Named::comma_text))]
fn comma(is_first: bool) -> &'static str
    ensures { result.now ≡ comma_text is_first }
{
    if is_first { "" } else { ", " }
}

/// How many messages are of further ones, where any are.
#[derive(Clone, Copy)]
struct Further(u64);

#[tactic(auto, unfolding(crate::specs::Others::further_text))]
impl Display for Further {
    ghost output = { λ rest. Some (further_text rest.0) };

    fn fmt<W: fmt::Write>(&self, f: &mut Formatter<W>) -> fmt::Result {
        match self.0 {
            0 => Ok(()),
            rest => write!(f, ", {rest} of further ones"),
        }
    }
}

/// A port, and how many messages it sent.
#[derive(Clone, Copy)]
struct Counted(Sender);

#[tactic(auto, unfolding(crate::specs::Others::sender_text))]
impl Display for Counted {
    ghost output = { λ sender. Some (sender_text sender.0) };

    fn fmt<W: fmt::Write>(&self, f: &mut Formatter<W>) -> fmt::Result {
        let Sender { port, count } = self.0;
        write!(f, "{count} of {}", Identity(&port))
    }
}

/// The ports that are listed by themselves.
#[derive(Clone, Copy)]
struct Ports {
    listed: [Option<Sender>; LISTED_MOST],
}

impl Display for Ports {
    ghost output = { λ ports. Some (parted (listed_parts ports.listed)) };

    fn fmt<W: fmt::Write>(&self, f: &mut Formatter<W>) -> fmt::Result {
        let mut is_first = true;
        for sender in &self.listed {
            if let Some(sender) = sender {
                write!(f, "{}{}", comma(is_first), Counted(*sender))?;
                is_first = false;
            }
        }
        Ok(())
    }
}

/// Ports, each with how many messages it sent.
#[derive(Clone, Copy)]
pub(crate) struct Listed(pub(crate) Senders);

#[tactic(auto, unfolding(crate::specs::Others::senders_text))]
impl Display for Listed {
    ghost output = { λ senders. Some (senders_text senders.0) };

    fn fmt<W: fmt::Write>(&self, f: &mut Formatter<W>) -> fmt::Result {
        let Senders { listed, rest } = self.0;
        write!(f, "{}{}", Ports { listed }, Further(rest))
    }
}

/// A domain, and how many messages are of it.
#[derive(Clone, Copy)]
struct Domain {
    number: usize,
    count: u64,
}

#[tactic(auto, unfolding(crate::specs::Others::domain_text))]
impl Display for Domain {
    ghost output = { λ domain. Some (domain_text (domain.number, domain.count)) };

    fn fmt<W: fmt::Write>(&self, f: &mut Formatter<W>) -> fmt::Result {
        write!(f, "{} of domain {}", self.count, self.number)
    }
}

/// Whether a domain is named of which there are so many messages, where so many are named before it.
fn is_named(count: u64, named: u64) -> bool
    ensures { result ≡ is_named count named }
{
    count > 0 && named < NAMED_MOST
}

/// The lowest domains, each with how many messages are of it.
#[derive(Clone, Copy)]
struct Named {
    counts: [u64; DOMAINS],
}

impl Display for Named {
    ghost output = { λ domains. Some (parted (named_parts domains.counts)) };

    fn fmt<W: fmt::Write>(&self, f: &mut Formatter<W>) -> fmt::Result {
        let mut named = 0;
        for (number, count) in self.counts.iter().enumerate() {
            if is_named(*count, named) {
                let domain = Domain {
                    number,
                    count: *count,
                };
                write!(f, "{}{domain}", comma(named == 0))?;
                named += 1;
            }
        }
        Ok(())
    }
}

/// How many messages are of domains that aren't named.
fn unnamed(counts: &[u64; DOMAINS]) -> u64
    ensures { result ≡ unnamed counts.now }
{
    let mut named = 0;
    let mut rest: u64 = 0;
    for count in counts {
        if is_named(*count, named) {
            named += 1;
        } else {
            rest = rest.saturating_add(*count);
        }
    }
    rest
}

/// Domains, each with how many messages are of it: the lowest, and all others together.
#[derive(Clone, Copy)]
pub(crate) struct Domains(pub(crate) [u64; DOMAINS]);

#[tactic(auto, unfolding(crate::specs::Others::domains_text))]
impl Display for Domains {
    ghost output = { λ counts. Some (domains_text counts.0) };

    fn fmt<W: fmt::Write>(&self, f: &mut Formatter<W>) -> fmt::Result {
        let named = Named { counts: self.0 };
        write!(f, "{named}{}", Further(unnamed(&self.0)))
    }
}

/// Who sends messages.
#[derive(Clone, Copy, PartialEq, Eq)]
pub enum Caller {
    /// A master, which sends Syncs.
    Master,
    /// A slave, which sends Delay_Reqs.
    Slave,
}

/// What it sends.
#[tactic(auto, unfolding(crate::specs::Others::call_name))]
fn call_name(caller: Caller) -> &'static str
    ensures { result.now ≡ call_name caller }
{
    match caller {
        Caller::Master => "Sync",
        Caller::Slave => "Delay_Req",
    }
}

/// Whether anybody is listed.
fn is_anybody(senders: &Senders) -> bool
    ensures { result ≡ is_anybody senders.now }
{
    senders.listed[0].is_some()
}

/// A line that tells who sent messages of a kind while it wasn't known whom to watch.
#[derive(Clone, Copy)]
pub struct CallersLine {
    /// Who sends messages of this kind.
    pub caller: Caller,
    /// Who sent them.
    pub senders: Senders,
}

#[tactic(auto, unfolding(crate::specs::Others::callers_text))]
impl Display for CallersLine {
    ghost output = { λ line. Some (callers_text line.caller line.senders) };

    fn fmt<W: fmt::Write>(&self, f: &mut Formatter<W>) -> fmt::Result {
        let name = call_name(self.caller);
        if is_anybody(&self.senders) {
            write!(f, "ptpx: {name}s of others: {}\n", Listed(self.senders))
        } else {
            write!(f, "ptpx: nobody sent a {name}\n")
        }
    }
}
