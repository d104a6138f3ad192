// Laws of sessions: the contracts of functions that do nothing.
ghost use Rattle.node_session.specs.Exact.{DeviceWhereFailed, ExhaustedWhereNoneLeft};
ghost use Rattle.node_session.specs.Lives.{LivesFollow};
ghost use Rattle.node_session.specs.Stamping.{NoStampTwice, OpenedAlone, TakenRises};
ghost use Rattle.node_session.specs.Sending.{MessagesAreSealed};
ghost use Rattle.node_session.specs.Told.{OwnLifeAlone, ToldLifeAlone};
ghost use Rattle.node_session.specs.Serving.{AnyClearing, AnyCutting, AnyTaking, AtOnceIsFed, BeginsAnywhere, BegunHistory, OneHistory, SendsSealed, StopsWhereFailed};

use line_words::numbers;
use sector_disk::SectorDisk;

/// What was fed decides what is answered, and not how it was cut.
pub fn any_cutting<D: SectorDisk>()
    ensures { AnyCutting D.state }
{}

/// What was answered may be written and cleared at any time: what is written in all is what is answered to all that was fed.
pub fn any_clearing<D: SectorDisk>()
    ensures { AnyClearing D.state }
{}

/// What the laws of pieces say holds of each piece that is fed.
pub fn at_once_is_fed<D: SectorDisk>()
    ensures { AtOnceIsFed D.state }
{}

/// Between two pieces a session may be told how long a command took: it changes what is waited for, and nothing else.
pub fn any_taking<D: SectorDisk>()
    ensures { AnyTaking D.state }
{}

/// A session stops only where the device failed.
pub fn stops_where_failed<D: SectorDisk>()
    ensures { StopsWhereFailed D.state }
{}

/// A call ends with `Device` only where the device failed.
pub fn device_where_failed<D: SectorDisk>()
    ensures { DeviceWhereFailed D.state }
{}

/// An event at a node that is up is refused as `Exhausted` only where no number is left.
pub fn exhausted_where_none_left<D: SectorDisk>()
    ensures { ExhaustedWhereNoneLeft D.state }
{}

/// Over an honest disk, what came of the lines is one history of the node.
pub fn one_history()
    // Promise: Over an honest disk it is one history; over any other each mounting begins one, from what was mounted.
    // Also: begun_history, begins_anywhere.
    ensures { OneHistory }
{}

/// Over a disk that isn't honest, a new session stands for anything that the disk may keep.
pub fn begins_anywhere<D: SectorDisk>()
    ensures { BeginsAnywhere D.state }
{}

/// A mounting begins a history of the node, whatever the disk gave.
pub fn begun_history()
    ensures { BegunHistory }
{}

/// Over an honest disk no stamp is sealed twice, in all lives of a node.
pub fn no_stamp_twice()
    // Promise: No stamp is sealed twice over all lives of a node, each begun at any moment of the last one, over an honest disk: each is
    // above the one before it.
    // Refuses: stamp_used_twice.
    ensures { NoStampTwice }
{}

/// Under a key each `send` line of an answer is the sealing of a message that the step hands out, with a stamp of its own.
pub fn sends_sealed<D: SectorDisk>()
    // Promise: The `send` lines of an answer are those of the messages that the step hands out, in their order, and these are messages of the
    // protocol: each is the sealing of its message under the first key, for the life of its receiver that was told, with the node's count and the
    // next number; without a key it is the message itself.
    // Also: line, Session::feed.
    // Refuses: another_message_sealed, stamp_used_twice, fallen_node_sends, sealed_for_another_life, unspelled_message_sent.
    ensures served { SendsSealed D.state }
    ensures line { MessagesAreSealed }
{
    numbers();
}

/// Under a key a node is delivered what a key of the session opened, above all that was taken of its sender.
pub fn opened_alone()
    // Promise: Under a key each message that a node is delivered was opened under a key of its session, and its stamp is above all that
    // was taken of its sender.
    // Refuses: stale_message_taken, unsealed_message_taken.
    ensures { OpenedAlone }
{}

/// What a process with a life delivers to its node was sealed for this life, whatever it was told before.
pub fn own_life_alone()
    // Promise: Each message that a node is delivered was sealed for the life of its process, under a key that the process was given: by somebody who
    // knew this life, so not before it was drawn.
    // Refuses: recorded_message_taken.
    ensures { OwnLifeAlone }
{}

/// Once the life of a node's process was told, what is sealed for this node is sealed for this life, and for the others nothing changes.
pub fn told_life_alone()
    // Promise: A message is sealed for the life that was told last of its receiver, whatever was told of others.
    // Refuses: sealed_for_another_life, told_life_forgotten.
    ensures { ToldLifeAlone }
{}

/// The stamps of what is taken of one node rise.
pub fn taken_rises()
    // Promise: The stamps of what is taken of one sender rise.
    // Refuses: stale_message_taken, old_stamp_kept.
    ensures { TakenRises }
{}

/// All processes of a node over an honest disk are one history, with a crash in front of each.
pub fn lives_follow()
    ensures { LivesFollow }
{}
