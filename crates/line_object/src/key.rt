//! The keys of nodes and events.
ghost use Rattle.std.specs.Prelude.{◌≡◌, IfSome};
ghost use Rattle.line_object.specs.Key.{key_text};
ghost use Rattle.line_object.specs.Inner.Apart.{key_place, same_key};

/// A key of a schedule or of a transcript.
#[derive(Clone, Copy, Debug, Default, PartialEq, Eq)]
pub enum Key {
    /// `at`: the true moment.
    #[default]
    At,
    /// `code`: the number of a reason.
    Code,
    /// `copy`: the tag of the event that sent the message.
    CopyTag,
    /// `diff`: reading less true moment.
    Diff,
    /// `domain`: domainNumber.
    Domain,
    /// `ev`: which event it is.
    Ev,
    /// `first`: the number that the port draws first.
    First,
    /// `hex`: the octets of a message.
    Hex,
    /// `id`: clockIdentity.
    Id,
    /// `kind`: which node it is.
    Kind,
    /// `log`: logMessageInterval.
    Log,
    /// `master`: the name of a node.
    Master,
    /// `n`: the event's place among the events.
    Number,
    /// `node`: the name of the node.
    Node,
    /// `offset2`: twice offsetFromMaster.
    Offset2,
    /// `out`: what came of the event.
    Out,
    /// `path2`: twice meanPathDelay.
    Path2,
    /// `port`: portNumber.
    Port,
    /// `reading`: what the node's clock read.
    Reading,
    /// `tags`: the tags of a report.
    Tags,
    /// `transit`: the tag of the event by which the message entered the clock.
    TransitTag,
}

impl Key {
    /// The key that a text is, without its quotes; None where it is none, which no clause says.
    pub fn of(text: &str) -> Option<Key>
        ensures { IfSome result (λ key. text.now ≡ key_text key) }
    {
        let key = Key::like(text.as_bytes())?;
        if key.text() == text { Some(key) } else { None }
    }

    /// The one key that a text may be, by no more octets than tell keys apart.
    fn like(text: &[u8]) -> Option<Key> {
        let key = match *text.first()? {
            b'a' => Key::At,
            b'c' if text.get(2) == Some(&b'd') => Key::Code,
            b'c' => Key::CopyTag,
            b'd' if text.get(1) == Some(&b'i') => Key::Diff,
            b'd' => Key::Domain,
            b'e' => Key::Ev,
            b'f' => Key::First,
            b'h' => Key::Hex,
            b'i' => Key::Id,
            b'k' => Key::Kind,
            b'l' => Key::Log,
            b'm' => Key::Master,
            b'n' if text.len() == 1 => Key::Number,
            b'n' => Key::Node,
            b'o' if text.len() == 3 => Key::Out,
            b'o' => Key::Offset2,
            b'p' if text.len() == 5 => Key::Path2,
            b'p' => Key::Port,
            b'r' => Key::Reading,
            b't' if text.len() == 4 => Key::Tags,
            b't' => Key::TransitTag,
            _ => return None,
        };
        Some(key)
    }

    /// The key as it stands in a line, without quotes.
    pub fn text(self) -> &'static str
        ensures { result.now ≡ key_text self }
    {
        match self {
            Key::At => "at",
            Key::Code => "code",
            Key::CopyTag => "copy",
            Key::Diff => "diff",
            Key::Domain => "domain",
            Key::Ev => "ev",
            Key::First => "first",
            Key::Hex => "hex",
            Key::Id => "id",
            Key::Kind => "kind",
            Key::Log => "log",
            Key::Master => "master",
            Key::Number => "n",
            Key::Node => "node",
            Key::Offset2 => "offset2",
            Key::Out => "out",
            Key::Path2 => "path2",
            Key::Port => "port",
            Key::Reading => "reading",
            Key::Tags => "tags",
            Key::TransitTag => "transit",
        }
    }

    /// A number by which keys are compared.
    fn place(self) -> u8
        ensures { result ≡ key_place self }
    {
        match self {
            Key::At => 0,
            Key::Code => 1,
            Key::CopyTag => 2,
            Key::Diff => 3,
            Key::Domain => 4,
            Key::Ev => 5,
            Key::First => 6,
            Key::Hex => 7,
            Key::Id => 8,
            Key::Kind => 9,
            Key::Log => 10,
            Key::Master => 11,
            Key::Number => 12,
            Key::Node => 13,
            Key::Offset2 => 14,
            Key::Out => 15,
            Key::Path2 => 16,
            Key::Port => 17,
            Key::Reading => 18,
            Key::Tags => 19,
            Key::TransitTag => 20,
        }
    }

    /// Whether it is this key.
    pub(crate) fn is(self, other: Key) -> bool
        ensures { result ≡ same_key self other }
    {
        self.place() == other.place()
    }
}
