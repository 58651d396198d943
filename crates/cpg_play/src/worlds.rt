//! Scripts of `step`.
//!
//! Proved: a line does and prints what its command does by `cpg_step`.

use crate::walks::Plays;
use cpg_cred::Refusal;
use cpg_step::{SteppedAsText, command_in_line, do_command};
use cpg_world::World;
use std::alloc::Global;

/// The commands of `step` over a world.
#[derive(Drop)]
pub struct OverWorld {
    /// The world that the commands before left.
    pub world: World,
}

impl Plays for OverWorld {
    ghost use Rattle.cpg_play.specs.Worlds.{does_in_world};

    ghost does = { does_in_world };

    fn is_live(&self) -> bool {
        false
    }

    fn reads(&mut self, alloc: Global, line: &[u8]) -> Result<bool, Refusal> {
        Ok(command_in_line(alloc, self.world.nodes(), line)?.is_some())
    }

    fn plays(&mut self, alloc: Global, line: &[u8], text: &mut Vec<u8>) -> Result<bool, Refusal> {
        match command_in_line(alloc, self.world.nodes(), line)? {
            None => Ok(false),
            Some(command) => {
                do_command(alloc, text, &mut SteppedAsText, 0, &mut self.world, command)?;
                Ok(true)
            }
        }
    }
}
