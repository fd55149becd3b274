//! An application of a node, and the port that it sends from.

ghost use Rattle.std.specs.Prelude.{◌≡◌, OnOk, All};
ghost use Rattle.layer_words.specs.Acts.{Appends};
ghost use Rattle.traffic_apps.specs.Seen.{plain_in, plain_act};
ghost use Rattle.traffic_apps.specs.Step.{BringsDatagram, CanTake, FitsDatagram};

use pkt_face::Pkt;
use sim_base::{NoMemory, Numbers};
use std::marker::Model;
use traffic_apps::{Act, App, In};

/// What an application has sent and got, by its number in the scenario.
#[derive(Clone, Copy, Debug, PartialEq, Eq)]
pub struct AppCount {
    pub app: u32,
    pub sent: u64,
    pub sent_bytes: u64,
    pub got: u64,
    pub got_bytes: u64,
}

/// An application, and the port that its datagrams come from: the one at which it listens, or its local port.
#[derive(Debug, Drop)]
pub struct LocalApp {
    app: App,
    port: u16,
}

impl Model for LocalApp {
    ghost use Rattle.node_step.specs.LocalApp.{PlainLocalApp};

    ghost Value = { PlainLocalApp };

    ghost view = { λ a. record { app = a.app; port = a.port } };
}

impl LocalApp {
    ghost use Rattle.node_step.specs.LocalApp.{app_count, app_step};

    pub fn make(app: App, port: u16) -> LocalApp
        ensures { result ≡ record { app = app; port = port } }
    {
        LocalApp { app, port }
    }

    pub fn port(&self) -> u16
        ensures { result ≡ self.now.port }
    {
        self.port
    }

    /// What the application has sent and got.
    pub fn count(&self) -> AppCount
        ensures { result ≡ app_count self.now }
    {
        let counts = self.app.counts();
        AppCount {
            app: self.app.number(),
            sent: counts.sent,
            sent_bytes: counts.sent_bytes,
            got: counts.got,
            got_bytes: counts.got_bytes,
        }
    }

    /// Takes an input, with the node's numbers, and puts the acts that follow behind `out`. After
    /// `NoMemory` all are given up.
    #[tactic(auto, using(traffic_apps::proofs::StepLaws::step_fits), unfolding(crate::specs::LocalApp::app_step))]
    pub fn step<P: Pkt>(
        &mut self,
        input: In<P>,
        maker: &mut P::Maker,
        numbers: &mut Numbers,
        out: &mut Vec<Act<P>>,
    ) -> Result<(), NoMemory>
        requires { CanTake (plain_in P.plain input) }
        ensures state { OnOk result (self.new ≡ (app_step self.old numbers.old (plain_in P.plain input)).state) }
        ensures numbers { OnOk result (numbers.new ≡ (app_step self.old numbers.old (plain_in P.plain input)).numbers) }
        ensures acts { OnOk result (Appends (plain_act P.plain) out.old.items out.new.items (app_step self.old numbers.old (plain_in P.plain input)).acts) }
        ensures fits { BringsDatagram (plain_in P.plain input) → All FitsDatagram (app_step self.old numbers.old (plain_in P.plain input)).acts }
    {
        self.app.is_within_limits();
        self.app.step(input, maker, numbers, out)
    }
}
