//! Arrays of the sums in JSON: who else is there, and what speaks against the numbers.
ghost use Rattle.std.specs.Prelude.{◌≡◌, ◌&&◌, not, is_some, Some, option_map};
ghost use Rattle.std.specs.List.{enumerate_from, list_any};
ghost use Rattle.recording_words.specs.SumArrays.{parted, sender_text, rest_text, rest_element, listed_elements, senders_text};
ghost use Rattle.recording_words.specs.SumArrays.{domain_text, domain_element, domain_elements, domains_text, beware_text, beware_elements, bewares_text};
ghost use Rattle.recording_words.specs.Inner.Elements.{comma_text, part_text};

use crate::beware_names::name;
use datagram_text::Identity;
use recording_summary::{Beware, Sender, Senders};
use std::fmt;
use std::fmt::{Display, Formatter};

/// What stands in front of an element.
#[tactic(auto, unfolding(crate::specs::Inner::Elements::comma_text))]
fn comma(is_first: bool) -> &'static str
    ensures { result.now ≡ comma_text is_first }
{
    if is_first { "" } else { "," }
}

/// Whether the next element is the first.
fn is_next_first(is_first: bool, has_element: bool) -> bool
    ensures { result ≡ (is_first && not has_element) }
{
    is_first && !has_element
}

/// How many messages a port sent.
#[derive(Clone, Copy)]
struct SenderObject(Sender);

#[tactic(auto, unfolding(crate::specs::SumArrays::sender_text))]
impl Display for SenderObject {
    ghost output = { λ sender. Some (sender_text sender.0) };

    fn fmt<W: fmt::Write>(&self, f: &mut Formatter<W>) -> fmt::Result {
        let Sender { port, count } = self.0;
        write!(
            f,
            "{{\"messages\":{count},\"port\":\"{}\"}}",
            Identity(&port)
        )
    }
}

/// A port, if there is one, and what stands in front of it.
#[derive(Clone, Copy)]
struct SenderPart {
    is_first: bool,
    sender: Option<Sender>,
}

#[tactic(auto, unfolding(crate::specs::Inner::Elements::part_text))]
impl Display for SenderPart {
    ghost output = { λ part. Some (part_text part.is_first (option_map sender_text part.sender)) };

    fn fmt<W: fmt::Write>(&self, f: &mut Formatter<W>) -> fmt::Result {
        match self.sender {
            Some(sender) => write!(f, "{}{}", comma(self.is_first), SenderObject(sender)),
            None => Ok(()),
        }
    }
}

/// The ports that are listed by themselves.
#[derive(Clone, Copy)]
struct Listed<'a>(&'a [Option<Sender>]);

impl Display for Listed<'_> {
    ghost output = { λ listed. Some (parted (listed_elements listed.0.now)) };

    fn fmt<W: fmt::Write>(&self, f: &mut Formatter<W>) -> fmt::Result {
        let mut is_first = true;
        for sender in self.0 {
            let sender = *sender;
            write!(f, "{}", SenderPart { is_first, sender })?;
            is_first = is_next_first(is_first, sender.is_some());
        }
        Ok(())
    }
}

/// How many messages all other ports sent.
#[derive(Clone, Copy)]
struct RestObject(u64);

#[tactic(auto, unfolding(crate::specs::SumArrays::rest_text))]
impl Display for RestObject {
    ghost output = { λ count. Some (rest_text count.0) };

    fn fmt<W: fmt::Write>(&self, f: &mut Formatter<W>) -> fmt::Result {
        write!(f, "{{\"messages\":{},\"port\":null}}", self.0)
    }
}

/// These, if they sent any, and what stands in front of them.
#[derive(Clone, Copy)]
struct RestPart {
    is_first: bool,
    count: u64,
}

#[tactic(auto, unfolding(crate::specs::Inner::Elements::part_text))]
impl Display for RestPart {
    ghost output = { λ part. Some (part_text part.is_first (rest_element part.count)) };

    fn fmt<W: fmt::Write>(&self, f: &mut Formatter<W>) -> fmt::Result {
        match self.count {
            0 => Ok(()),
            count => write!(f, "{}{}", comma(self.is_first), RestObject(count)),
        }
    }
}

/// Whether any port is listed by itself.
fn is_any_listed(senders: &Senders) -> bool
    ensures { result ≡ list_any is_some senders.now.listed }
{
    senders.listed.iter().any(Option::is_some)
}

/// How many messages other ports sent.
#[derive(Clone, Copy)]
pub(crate) struct SenderArray(pub(crate) Senders);

#[tactic(auto, unfolding(crate::specs::SumArrays::senders_text))]
impl Display for SenderArray {
    ghost output = { λ senders. Some (senders_text senders.0) };

    fn fmt<W: fmt::Write>(&self, f: &mut Formatter<W>) -> fmt::Result {
        let rest = RestPart {
            is_first: !is_any_listed(&self.0),
            count: self.0.rest,
        };
        write!(f, "[{}{rest}]", Listed(&self.0.listed))
    }
}

/// How many messages are of a domain.
#[derive(Clone, Copy)]
struct DomainObject {
    domain: usize,
    count: u64,
}

#[tactic(auto, unfolding(crate::specs::SumArrays::domain_text))]
impl Display for DomainObject {
    ghost output = { λ object. Some (domain_text object.domain object.count) };

    fn fmt<W: fmt::Write>(&self, f: &mut Formatter<W>) -> fmt::Result {
        let Self { domain, count } = *self;
        write!(f, "{{\"domain\":{domain},\"messages\":{count}}}")
    }
}

/// A domain, if any messages are of it, and what stands in front of it.
#[derive(Clone, Copy)]
struct DomainPart {
    is_first: bool,
    domain: usize,
    count: u64,
}

#[tactic(auto, unfolding(crate::specs::Inner::Elements::part_text))]
impl Display for DomainPart {
    ghost output = { λ part. Some (part_text part.is_first (domain_element part.domain part.count)) };

    fn fmt<W: fmt::Write>(&self, f: &mut Formatter<W>) -> fmt::Result {
        let object = DomainObject {
            domain: self.domain,
            count: self.count,
        };
        match self.count {
            0 => Ok(()),
            _ => write!(f, "{}{object}", comma(self.is_first)),
        }
    }
}

/// All domains that messages are of.
#[derive(Clone, Copy)]
struct Domains<'a>(&'a [u64]);

impl Display for Domains<'_> {
    ghost output = { λ counts. Some (parted (domain_elements (enumerate_from 0 counts.0.now))) };

    fn fmt<W: fmt::Write>(&self, f: &mut Formatter<W>) -> fmt::Result {
        let mut is_first = true;
        for (domain, count) in self.0.iter().enumerate() {
            let count = *count;
            let part = DomainPart {
                is_first,
                domain,
                count,
            };
            write!(f, "{part}")?;
            is_first = is_next_first(is_first, count != 0);
        }
        Ok(())
    }
}

/// How many messages are of each other domain, of which any are.
#[derive(Clone, Copy)]
pub(crate) struct DomainArray<'a>(pub(crate) &'a [u64]);

#[tactic(auto, unfolding(crate::specs::SumArrays::domains_text))]
impl Display for DomainArray<'_> {
    ghost output = { λ counts. Some (domains_text counts.0.now) };

    fn fmt<W: fmt::Write>(&self, f: &mut Formatter<W>) -> fmt::Result {
        write!(f, "[{}]", Domains(self.0))
    }
}

/// The name of what speaks against the numbers.
#[derive(Clone, Copy)]
struct BewareName(Beware);

#[tactic(auto, unfolding(crate::specs::SumArrays::beware_text))]
impl Display for BewareName {
    ghost output = { λ beware. Some (beware_text beware.0) };

    fn fmt<W: fmt::Write>(&self, f: &mut Formatter<W>) -> fmt::Result {
        write!(f, "\"{}\"", name(&self.0))
    }
}

/// The name of what speaks against the numbers, if it does, and what stands in front of it.
#[derive(Clone, Copy)]
struct BewarePart {
    is_first: bool,
    beware: Option<Beware>,
}

#[tactic(auto, unfolding(crate::specs::Inner::Elements::part_text))]
impl Display for BewarePart {
    ghost output = { λ part. Some (part_text part.is_first (option_map beware_text part.beware)) };

    fn fmt<W: fmt::Write>(&self, f: &mut Formatter<W>) -> fmt::Result {
        match self.beware {
            Some(beware) => write!(f, "{}{}", comma(self.is_first), BewareName(beware)),
            None => Ok(()),
        }
    }
}

/// The names of all that speaks against the numbers.
#[derive(Clone, Copy)]
struct Bewares<'a>(&'a [Option<Beware>]);

impl Display for Bewares<'_> {
    ghost output = { λ bewares. Some (parted (beware_elements bewares.0.now)) };

    fn fmt<W: fmt::Write>(&self, f: &mut Formatter<W>) -> fmt::Result {
        let mut is_first = true;
        for beware in self.0 {
            let beware = *beware;
            write!(f, "{}", BewarePart { is_first, beware })?;
            is_first = is_next_first(is_first, beware.is_some());
        }
        Ok(())
    }
}

/// All that speaks against the numbers, by its names.
#[derive(Clone, Copy)]
pub(crate) struct BewareArray<'a>(pub(crate) &'a [Option<Beware>]);

#[tactic(auto, unfolding(crate::specs::SumArrays::bewares_text))]
impl Display for BewareArray<'_> {
    ghost output = { λ bewares. Some (bewares_text bewares.0.now) };

    fn fmt<W: fmt::Write>(&self, f: &mut Formatter<W>) -> fmt::Result {
        write!(f, "[{}]", Bewares(self.0))
    }
}
