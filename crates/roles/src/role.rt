// A role of a specification, with its program so far.
ghost use Rattle.std.specs.Prelude.{◌≡◌, ◌<◌, List, IfOk};
ghost use Rattle.model.specs.Trees.{Tree};
ghost use Rattle.terms.specs.Terms.{size, tree_in};
ghost use Rattle.terms.specs.Meanings.{Lists, scope_of};
ghost use Rattle.roles.specs.Parties.{makes_of};
ghost use Rattle.roles.specs.Playing.{says, hears};
ghost use Rattle.roles.specs.Starting.{started, StartsAs};
ghost use Rattle.roles.specs.Players.{player_of, Plays};
ghost use Rattle.roles.specs.Roles.{Fit, Keeps};
ghost use Rattle.roles.specs.Ended.{too_much, KeepsRest, Ends};

use crate::exhausted::add_rows;
use crate::line_fault::LineFault;
use crate::party::Party;
use crate::state::RoleState;
use crate::view::View;
use program::action::Row;
use std::alloc::Global;
use syntax::spec::Name;
use terms::declarations::Declarations;
use terms::limits::Limits;
use terms::table::TermTable;
use text::part::Part;

// The line that a role is at, with the place of a fault in it, the number of its sender in the order of roles, and the limits.
#[derive(Clone, Copy)]
pub(crate) struct Turn {
    pub(crate) line: usize,
    pub(crate) at: usize,
    pub(crate) role: usize,
    pub(crate) limits: Limits,
}

// That its party and state fit a table is said where a role is handed on: an invariant would have to hold after an error too, which
// leaves it half way.
#[derive(Drop)]
pub struct Role {
    // the role's name, by number, and where it stands in the text
    pub name: u8,
    pub part: Part,
    // the actions of the state, with their lines, of which composing and settling know nothing
    pub rows: Vec<Row>,
    party: Party,
    state: RoleState,
}

impl Role {
    // A role at the start of its program: it is given what its party starts from, and settles it. A limit is passed at the
    // role's name.
    pub(crate) fn start(
        heap: Global,
        declarations: &Declarations,
        number: u8,
        name: Name,
        limits: Limits,
    ) -> Result<Role, LineFault>
        ensures fits { IfOk result (λ role. Fit declarations.now.terms role.party role.state) }
        ensures starts { StartsAs declarations.now.terms (started limits (scope_of declarations.now) number name) result }
    {
        let terms = declarations.starting_terms(heap, number)?;
        let party = Party::of(heap, declarations, number)?;
        let mut role = Role {
            name: number,
            part: name.part,
            rows: Vec::new(heap),
            party,
            state: RoleState::new(heap),
        };
        let view = View {
            table: declarations.terms(),
            party: &role.party,
        };
        let turn = Turn {
            line: 0,
            at: name.at,
            role: 0,
            limits,
        };
        match role.state.start(view, terms.as_slice()) {
            Ok(()) => {
                role.end_line(turn)?;
                Ok(role)
            }
            Err(fault) => Err(fault.of_role(turn.role, name.at)),
        }
    }

    // The role says a term, in which some names may be made. By a `match`, here and in `start` and `hear`: with `map_err` and `?`, what
    // a fault leaves in the role takes a longer proof.
    pub(crate) fn say(
        &mut self,
        table: &TermTable,
        turn: Turn,
        made: &[u8],
        term: u16,
    ) -> Result<(), LineFault>
        requires within { term < size table.now }
        requires fits { Fit table.now self.old.party self.old.state }
        ensures fits { Keeps table.now self.new.party self.new.state result }
        ensures plays { (us : List Tree) → Lists table.now us → Plays table.now (says turn.limits turn.line turn.at turn.role us (makes_of made.now) (tree_in table.now term) (player_of table.now self.old)) self.new result }
    {
        let view = View {
            table,
            party: &self.party,
        };
        match self.state.say(view, made, term) {
            Ok(()) => self.end_line(turn),
            Err(fault) => Err(fault.of_role(turn.role, turn.at)),
        }
    }

    pub(crate) fn hear(&mut self, table: &TermTable, turn: Turn, term: u16) -> Result<(), LineFault>
        requires within { term < size table.now }
        requires fits { Fit table.now self.old.party self.old.state }
        ensures fits { Keeps table.now self.new.party self.new.state result }
        ensures plays { Plays table.now (hears turn.limits turn.line turn.at (tree_in table.now term) (player_of table.now self.old)) self.new result }
    {
        let view = View {
            table,
            party: &self.party,
        };
        match self.state.hear(view, term) {
            Ok(()) => self.end_line(turn),
            Err(fault) => Err(fault.of_role(turn.role, turn.at)),
        }
    }

    // The actions that were added belong to a line. Only now are the limits looked at: a message that cannot be derived is
    // refused as such, however many registers it takes until that shows.
    fn end_line(&mut self, turn: Turn) -> Result<(), LineFault>
        ensures rest { KeepsRest self.old self.new }
        ensures ends { Ends turn.limits turn.line turn.at self.old self.new result }
    {
        if self.too_much(turn.limits) {
            return Err(LineFault::Limit { at: turn.at });
        }
        add_rows(&mut self.rows, turn.line, &self.state.actions)?;
        Ok(())
    }

    // More registers or actions than a role may have?
    fn too_much(&self, limits: Limits) -> bool
        ensures { result ≡ too_much limits self.now }
    {
        self.state.next as usize > limits.most_registers()
            || self.state.actions.len() > limits.most_actions()
    }
}
