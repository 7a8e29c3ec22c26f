// One hire: a run for each role, what each is given, how far it has come, and what was said.
use crate::given::{NOTHING, Numbers, given_to};
use crate::plan::Plan;
use anyhow::anyhow;
use program::held::Program;
use run::run::Run;
use std::alloc::Global;

// What a role takes in at its begin, and how many rows of its program are done.
#[derive(Drop)]
pub(crate) struct Player {
    pub(crate) given: Vec<u32>,
    pub(crate) numbers: Vec<u32>,
    pub(crate) done: usize,
}

#[derive(Drop)]
pub(crate) struct Hire<'a> {
    pub(crate) runs: Vec<Run<'a>>,
    pub(crate) players: Vec<Player>,
    // the value of each line, and that of the hire before
    pub(crate) said: Vec<u32>,
    pub(crate) old: Vec<u32>,
}

impl<'a> Hire<'a> {
    // New runs, with new numbers for what they make.
    pub(crate) fn new(
        heap: Global,
        plan: &'a Plan,
        given: &[u32],
        numbers: &mut Numbers,
        old: Vec<u32>,
    ) -> anyhow::Result<Hire<'a>> {
        let mut runs = Vec::new(heap);
        let mut players = Vec::new(heap);
        for role in &plan.translation.roles {
            let Ok(program) = Program::from_rows(heap, &role.rows, &plan.counts) else {
                return Err(anyhow!("a program does not pass the check"));
            };
            runs.push(Run::new(heap, program)?)?;
            players.push(Player {
                given: given_to(heap, &plan.translation.declarations, role.name, given)?,
                numbers: numbers.for_rows(heap, &role.rows)?,
                done: 0,
            })?;
        }
        let said = vec![in heap; NOTHING; plan.exchanges.len()]?;
        Ok(Hire {
            runs,
            players,
            said,
            old,
        })
    }
}
