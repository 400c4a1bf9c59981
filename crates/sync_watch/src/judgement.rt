/// What the number of a master's message says.
#[derive(Clone, Copy, Debug, PartialEq, Eq)]
pub enum Judgement {
    /// Nothing: a port is to hear the message.
    Newer,
    /// It came before, or is a Follow_Up of another Sync: no port is to hear it.
    Repeated,
    /// The master began its numbers anew: a port is to be told its master again, and then to hear the message.
    BeganAnew,
}
