//! The home server, message by message.

ghost use Rattle.std.specs.Prelude.{◌≡◌, List, IfOk, MatchResult};
ghost use Rattle.diameter_message.specs.Message.{read_message};
ghost use Rattle.test_peers.specs.declared.users.User.{User};
ghost use Rattle.test_peers.specs.declared.fault.HomeFault.TheVariants as faults;
ghost use Rattle.test_peers.specs.Answers.{answer_by_home};
ghost use Rattle.test_peers.specs.UserForm.{IsUserList};
ghost use Rattle.test_peers.specs.Users.{Reads, users_in};

use crate::answers::{is_request, write_answer};
use crate::fault::HomeFault;
use crate::lines::Lines;
use crate::users::{User, read_user};
use diameter_message::parse;
use std::alloc::Global;
use std::marker::Model;
use wire_core::{NoMemory, Octets};

/// A home server. Contracts see the users that it knows.
#[derive(Drop)]
pub struct Home {
    users: Vec<User>,
}

impl Model for Home {
    ghost use Rattle.std.specs.Prelude.{List};
    ghost use Rattle.test_peers.specs.declared.users.User.{User};

    ghost Value = { List User };

    ghost view = { λ h. h.users.items };
}

impl Home {
    /// A home server that knows the users of a list: lines `NAME HEX` of a name and its password in hex, or `-` for an
    /// empty one.
    pub fn new(alloc: Global, users: &[u8]) -> Result<Home, HomeFault>
        // The list has its form, and a list of this form is taken.
        ensures found { IfOk result (λ home. IsUserList users.now home) }
        ensures only { (known : List User) → IsUserList users.now known
            → MatchResult result (λ home. home ≡ known) (λ fault. fault ≡ faults.NoMemory) }
        // Which users they are, or which line is the first bad one, and why.
        ensures exact { Reads result (users_in users.now) }
    {
        Home::read(alloc, users)
    }

    #[tactic(auto, using(crate::proofs::UserLemmas::put_none, crate::proofs::UserLemmas::reads_on, crate::proofs::UserLemmas::stops_at, crate::proofs::UserLemmas::reads_all))]
    fn read(alloc: Global, text: &[u8]) -> Result<Home, HomeFault>
        ensures { Reads result (users_in text.now) }
    {
        let mut users = Vec::new(alloc);
        for line in Lines::new(text) {
            let number = users.len() as u64 + 1;
            users.push(read_user(alloc, line, number)?)?;
        }
        Ok(Home { users })
    }

    /// The answer to a message: None where it is no message, or an answer itself.
    pub fn step(&mut self, message: &[u8]) -> Result<Option<Octets>, NoMemory>
        ensures answer { IfOk result
            (λ answer. answer ≡ answer_by_home self.old (read_message message.now)) }
        ensures users { self.new ≡ self.old }
    {
        let Ok(request) = parse(message) else {
            return Ok(None);
        };
        if !is_request(&request.header) {
            return Ok(None);
        }
        let alloc = *self.users.allocator();
        Ok(Some(write_answer(alloc, &self.users, &request)?))
    }
}
