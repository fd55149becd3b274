//! What the device of an interface asks for, whatever its kind.

ghost use Rattle.std.specs.Prelude.{◌≡◌};
ghost use Rattle.iface_step.specs.Devices.{of_lan, of_link};
ghost use Rattle.iface_step.specs.SeenDevice.{plain_device_act};
ghost use Rattle.csma_dev.specs.Seen.{plain_act as plain_lan_act};
ghost use Rattle.p2p_dev.specs.Seen.{plain_act as plain_link_act};

use pkt_face::Pkt;
use sim_base::Time;

/// An act of a device, on a link or on a LAN.
#[derive(Debug, Drop)]
pub enum DeviceAct<P> {
    /// Tell the device, then, that its frame has left, or has come to the others.
    Tell { at: Time },
    /// Tell the device, then, that the time to wait for the bus is over.
    Wait { at: Time },
    /// Let the frame arrive at the neighbours, then.
    Reach { at: Time, frame: P },
    /// Write the frame into the traces.
    Save { frame: P },
    /// The frame is lost on its way here, or the bus was never free for it.
    Lose { frame: P },
    /// Hand a packet to a protocol.
    Lift { proto: u16, packet: P },
}

pub(crate) fn of_link<P: Pkt>(act: p2p_dev::Act<P>) -> DeviceAct<P>
    ensures { plain_device_act P.plain result ≡ of_link (plain_link_act P.plain act) }
{
    match act {
        p2p_dev::Act::SentAt { at } => DeviceAct::Tell { at },
        p2p_dev::Act::ArriveAt { at, frame } => DeviceAct::Reach { at, frame },
        p2p_dev::Act::Save { frame } => DeviceAct::Save { frame },
        p2p_dev::Act::Lost { frame } => DeviceAct::Lose { frame },
        p2p_dev::Act::Up { proto, packet } => DeviceAct::Lift { proto, packet },
    }
}

pub(crate) fn of_lan<P: Pkt>(act: csma_dev::Act<P>) -> DeviceAct<P>
    ensures { plain_device_act P.plain result ≡ of_lan (plain_lan_act P.plain act) }
{
    match act {
        csma_dev::Act::Save { frame } => DeviceAct::Save { frame },
        csma_dev::Act::ArriveAt { at, frame } => DeviceAct::Reach { at, frame },
        csma_dev::Act::SentAt { at } => DeviceAct::Tell { at },
        csma_dev::Act::BackoffAt { at } => DeviceAct::Wait { at },
        csma_dev::Act::GaveUp { frame } | csma_dev::Act::Lost { frame } => DeviceAct::Lose {
            frame,
        },
        csma_dev::Act::Up { proto, packet } => DeviceAct::Lift { proto, packet },
    }
}
