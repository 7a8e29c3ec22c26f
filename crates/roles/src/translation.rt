// The lines of a specification: label, roles with their starts, types and terms of the message, sender, receiver.
ghost use Rattle.std.specs.Prelude.{◌≡◌, ◌<◌, [], map, length};
ghost use Rattle.syntax.specs.Views.{term_of, line_of};
ghost use Rattle.roles.specs.AllRoles.{AllFit, AllKeep, Placed, place_of};
ghost use Rattle.roles.specs.Stages as stages;
ghost use Rattle.roles.specs.Staging.{stage_of, Comes, FindsRole};

use crate::label::fresh_label;
use crate::line_fault::LineFault;
use crate::role::{Role, Turn};
use base::push;
use std::alloc::Global;
use syntax::spec::{Line, Name, Spec, Term};
use terms::declarations::Declarations;
use terms::limits::Limits;

// What the lines are read from.
#[derive(Clone, Copy)]
pub(crate) struct Input<'a> {
    pub(crate) heap: Global,
    pub(crate) text: &'a [u8],
    pub(crate) spec: &'a Spec,
    pub(crate) limits: Limits,
}

// The declarations, and the roles in order of first standing in a line, each with its program. That the roles fit the terms is no
// invariant: a role that failed half way does not.
#[derive(Drop)]
pub struct Translation {
    pub declarations: Declarations,
    pub roles: Vec<Role>,
}

impl Translation {
    pub(crate) fn lines(&mut self, input: Input, lines: &[Line]) -> Result<(), LineFault>
        requires { AllFit self.old.declarations.terms self.old.roles.items }
        ensures { Comes (stages.lines input.entry.limits input.entry.text.now [] (map (line_of input.entry.spec.now) lines.now) (stage_of self.old)) self.new result }
    {
        for (index, line) in lines.iter().enumerate() {
            fresh_label(input.text, &lines[..index], line.label)?;
            self.line(input, index + 1, *line)?;
        }
        Ok(())
    }

    fn line(&mut self, input: Input, number: usize, line: Line) -> Result<(), LineFault>
        requires { AllFit self.old.declarations.terms self.old.roles.items }
        ensures keeps { AllKeep self.new.declarations.terms self.new.roles.items result }
        ensures comes { Comes (stages.line input.entry.limits input.entry.text.now number (line_of input.entry.spec.now line) (stage_of self.old)) self.new result }
    {
        let sender = self.declarations.principal(input.text, line.sender)?;
        let sender_place = self.role(input, sender, line.sender)?;
        let receiver = self.declarations.principal(input.text, line.receiver)?;
        if receiver == sender {
            return Err(LineFault::Repeated {
                at: line.receiver.at,
            });
        }
        let receiver_place = self.role(input, receiver, line.receiver)?;
        let nothing = Term::nothing();
        let message = input.spec.term_or(line.message, &nothing);
        self.message(input, number, message, sender_place, receiver_place)
    }

    // The role of this name, by its place: sender and receiver are changed in turn, and two `&mut` into one list are not to be had.
    fn place_of(&self, number: u8) -> Option<usize>
        ensures { result ≡ place_of number self.now.roles.items }
    {
        self.roles.iter().position(|role| role.name == number)
    }

    // The place of a role among the roles. A role starts where it stands first.
    fn role(&mut self, input: Input, number: u8, name: Name) -> Result<usize, LineFault>
        requires { AllFit self.old.declarations.terms self.old.roles.items }
        ensures placed { Placed self.new.declarations.terms self.old.roles.items self.new.roles.items result }
        ensures finds { FindsRole number (stages.with_role input.entry.limits input.entry.text.now number name (stage_of self.old)) self.new result }
    {
        let place = self.roles.len();
        if let Some(earlier) = self.place_of(number) {
            return Ok(earlier);
        }
        if place >= input.limits.most_roles() {
            return Err(LineFault::Limit { at: name.at });
        }
        let role = Role::start(input.heap, &self.declarations, number, name, input.limits)?;
        push(&mut self.roles, role)?;
        Ok(place)
    }

    // The types and terms of the message come before its sender, and the sender before its receiver.
    fn message(
        &mut self,
        input: Input,
        number: usize,
        message: &Term,
        sender: usize,
        receiver: usize,
    ) -> Result<(), LineFault>
        requires fit { AllFit self.old.declarations.terms self.old.roles.items }
        requires sender { sender < length self.old.roles.items }
        requires receiver { receiver < length self.old.roles.items }
        ensures keeps { AllKeep self.new.declarations.terms self.new.roles.items result }
        ensures comes { Comes (stages.message input.entry.limits input.entry.text.now number (term_of message.now) sender receiver (stage_of self.old)) self.new result }
    {
        let turn = Turn {
            line: number,
            at: message.place(),
            role: sender,
            limits: input.limits,
        };
        let before = self.declarations.terms().len();
        let term = self.declarations.term(input.text, message, input.limits)?;
        let made = self.declarations.made_since(input.heap, before)?;
        let table = self.declarations.terms();
        self.roles[sender].say(table, turn, made.as_slice(), term)?;
        self.roles[receiver].hear(table, turn, term)
    }
}
