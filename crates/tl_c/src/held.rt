//! What handles hold.
ghost use Rattle.std.specs.Prelude.{◌≡◌, ◌+◌, length};

use crate::draft::Draft;
use check_flight::Answer;
use check_lines::Names;
use check_model::SystemModel;
use check_rows::PortNumbers;
use check_start::Loads;
use check_turns::OrderedWatch;
use check_unanswered::Pending;
use std::alloc::AllocError;
use std::marker::Model;
use tl_types::Ask;

/// The model of a crossbar. Each request that it is handed is read into the place of the one before, and each answer put
/// into the place of the one before: contracts see the crossbar alone.
#[derive(Drop)]
pub struct Server {
    pub crossbar: SystemModel,
    pub ask: Ask,
    pub answer: Answer,
}

impl Model for Server {
    ghost use Rattle.check_model.specs.Model.{ModelState};

    ghost Value = { ModelState };

    ghost view = { λ s. s.crossbar };
}

// the places of a request and of an answer hold nothing that goes on
impl Clone for Server {
    ghost use Rattle.std.specs.Prelude.{◌≡◌};

    ghost is_clone = { λ server copy. copy ≡ server };

    fn clone(&self) -> Result<Server, AllocError> {
        Ok(Server {
            crossbar: self.crossbar.clone()?,
            ask: Ask::blank(),
            answer: Answer::blank(),
        })
    }
}

/// A judge of beats, with the names of links, whether there may be resets of the whole system and what they load, the numbers of
/// sources at ports' links, the requests in flight, how many whole requests and replies it has seen, and the line of the last fault.
#[derive(Drop)]
pub struct HeldJudge {
    pub watch: OrderedWatch,
    pub names: Names,
    pub resets: bool,
    pub loads: Loads,
    pub numbers: Vec<Option<PortNumbers>>,
    pub pending: Pending,
    pub requests: u64,
    pub answered: u64,
    pub text: Vec<u8>,
    ghost counted: { length loads ≡ length watch.layout.ports + 1 },
}

/// What a handle holds.
#[derive(Drop)]
pub enum HandleContent {
    /// What a system file names.
    Draft(Draft),
    Model(Server),
    Judge(HeldJudge),
}
