// What is to be done: a store, a kind of work, a size, and how many rounds, as in `tape same 11 1000`.

#[derive(Clone, Copy)]
pub(crate) enum StoreKind {
    Rows,
    Tape,
}

#[derive(Clone, Copy)]
pub(crate) enum Work {
    // makers
    Atoms,
    Tuples,
    Copies,
    // questions
    Shape,
    Part,
    Same,
    Unlock,
}

#[derive(Clone, Copy)]
pub(crate) struct Order {
    pub(crate) store: StoreKind,
    pub(crate) work: Work,
    // how often a value is doubled before it is copied or asked about
    pub(crate) size: u32,
    pub(crate) rounds: u32,
}

impl Order {
    pub(crate) fn read(line: &str) -> Option<Order> {
        let mut words = line.split(' ');
        let store = store_of(words.next()?)?;
        let work = work_of(words.next()?)?;
        let size = words.next()?.parse::<u32>().ok()?;
        let rounds = words.next()?.parse::<u32>().ok()?;
        if words.next().is_some() {
            return None;
        }
        Some(Order {
            store,
            work,
            size,
            rounds,
        })
    }
}

fn store_of(word: &str) -> Option<StoreKind> {
    match word {
        "rows" => Some(StoreKind::Rows),
        "tape" => Some(StoreKind::Tape),
        _ => None,
    }
}

fn work_of(word: &str) -> Option<Work> {
    match word {
        "atoms" => Some(Work::Atoms),
        "tuples" => Some(Work::Tuples),
        "copies" => Some(Work::Copies),
        "shape" => Some(Work::Shape),
        "part" => Some(Work::Part),
        "same" => Some(Work::Same),
        "unlock" => Some(Work::Unlock),
        _ => None,
    }
}

impl Work {
    // Whether it fills the store.
    pub(crate) fn makes(self) -> bool {
        matches!(self, Work::Atoms | Work::Tuples | Work::Copies)
    }
}
