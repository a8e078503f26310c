ghost use Rattle.std.specs.Prelude.{◌≡◌};

/// What a message does to its receivers.
#[derive(Clone, Copy, Debug, PartialEq, Eq)]
pub enum Kind {
    /// It brings its value, and is delivered to them.
    Event,
    /// It takes back an earlier Event of its sender, as HLA 1.3's Retract does: the one whose
    /// number is its value. It is never delivered.
    Retraction,
}

/// A message of one federate to the members of a group, in time-stamp order.
#[derive(Clone, Copy, Debug, PartialEq, Eq)]
pub struct Message {
    /// Its time stamp, in the federation's logical time. A Retraction has that of its target.
    pub time: u64,
    /// The federate that sent it, by its number.
    pub sender: u8,
    /// Which of the sender's messages it is, counted from 1.
    pub number: u16,
    /// Whether it brings a value or takes a message back.
    pub kind: Kind,
    /// The group that it is sent to, by its number. A Retraction has that of its target.
    pub group: u8,
    /// What an Event brings, or the number of a Retraction's target.
    pub value: u32,
}

impl Message {
    /// Time, sender and number. Messages are delivered in the order of these, and no two messages
    /// of a run agree in the last two.
    pub fn key(&self) -> (u64, u8, u16)
        ensures { result ≡ (self.now.time, self.now.sender, self.now.number) }
    {
        (self.time, self.sender, self.number)
    }
}

#[cfg(test)]
mod tests {
    use super::*;

    fn message(time: u64, sender: u8, number: u16) -> Message {
        Message {
            time,
            sender,
            number,
            kind: Kind::Event,
            group: 0,
            value: 0,
        }
    }

    #[test]
    fn orders_by_time_then_sender_then_number(rt: HostRuntime) {
        for (first, second) in [
            (message(4, 3, 2), message(5, 0, 1)),
            (message(5, 0, 9), message(5, 1, 2)),
            (message(5, 1, 2), message(5, 1, 10)),
        ] {
            assert!(rt; first.key() < second.key(), "{first:?}");
        }
    }
}
