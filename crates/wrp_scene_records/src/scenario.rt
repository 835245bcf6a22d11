//! The scenario that record lines say.
ghost use Rattle.std.specs.Prelude.{◌≡◌, ◌+◌, ◌++◌, ◌∷◌, [], ℕ, List, IfOk, length};
ghost use Rattle.wrp_base.specs.Lines.{parts_of};
ghost use Rattle.wrp_network.specs.Network.{HasRanges};
ghost use Rattle.wrp_scene.specs.Scenario.{IsSceneOf};
ghost use Rattle.wrp_scene.specs.ScenarioLines.{outcome, scene_read};
ghost use Rattle.wrp_scene_records.specs.ScenarioStands.{CanRead, SaysScenario};
ghost use Rattle.wrp_scene_records.specs.Scenarios.{AcceptsScene, RefusesScene};
ghost use Rattle.wrp_records.specs.Split.{IsSplit};

use csv::ByteRecord;
use std::alloc::{AllocError, Global};
use wrp_base::TraceFault;
use wrp_config::Network;
use wrp_records::{Closing, Machine, Taken, refuse};
use wrp_scene::Scene;

/// The scenario of a network, as far as its lines have been read.
#[derive(Drop)]
pub struct ScenarioLines<'a> {
    net: &'a Network,
    scene: Scene,
}

impl<'a> ScenarioLines<'a> {
    /// The scenario before its first line.
    pub fn new(net: &'a Network) -> ScenarioLines<'a>
        requires { HasRanges net.now.cfg }
        ensures ready { CanRead result }
        ensures taken { SaysScenario result [] }
        ensures net { result.net.now ≡ net.now }
    {
        ScenarioLines {
            net,
            scene: Scene::new(net),
        }
    }

    /// The scenario.
    pub fn into_scene(self) -> Scene
        ensures { result ≡ self.entry.scene }
    {
        let ScenarioLines { scene, .. } = self;
        scene
    }

    // Takes what a line says, by its parts. A line that is not plain has none.
    fn read(&mut self, line: &[u8], parts: Option<&ByteRecord>) -> Result<(), TraceFault>
        requires split { IsSplit line.now parts }
        requires ready { CanRead self.old }
        ensures ready { CanRead self.new }
        ensures net { self.new.net ≡ self.old.net }
        ensures value { outcome result self.new.scene
            ≡ scene_read self.old.net.now.cfg self.old.scene line.now }
    {
        let _line = line;
        match parts {
            Some(row) => self.scene.read_fields(row, self.net),
            None => Err(TraceFault::Fields),
        }
    }
}

impl<'a> Machine for ScenarioLines<'a> {
    ghost use Rattle.std.specs.Prelude.{◌≡◌, []};
    ghost use Rattle.wrp_records.specs.LineMeaning.{bars_none};
    ghost use Rattle.wrp_scene_records.specs.ScenarioStands.{CanRead, SaysScenario};
    ghost use Rattle.wrp_scene_records.specs.Scenarios.{AcceptsScene, RefusesScene};

    type Setting = &'a Network;

    ghost setting = { λ s. s.net };

    ghost count = { λ s. 0 };

    ghost is_ready = { CanRead };

    ghost has_taken = { SaysScenario };

    ghost accepts = { λ net. AcceptsScene net.now.cfg };

    ghost refuses = { λ net. RefusesScene net.now.cfg };

    // The network runs after the records, by whoever has them.
    ghost closes = { λ _ _ text. text ≡ [] };

    ghost bars = { λ _. bars_none };

    fn take(
        &mut self,
        alloc: Global,
        line: &[u8],
        parts: Option<&ByteRecord>,
        number: u32,
        text: &mut Vec<u8>,
    ) -> Result<Taken, AllocError> {
        match self.read(line, parts) {
            Ok(()) => Ok(Taken::Accepted),
            Err(fault) => refuse(alloc, number, &fault, text),
        }
    }

    fn close(&self, _alloc: Global, _text: &mut Vec<u8>) -> Result<Closing, AllocError> {
        Ok(Closing::Closed)
    }
}
