use std::io;

// How often a thing of one kind came up.
#[derive(Clone, Copy)]
pub struct Count<K> {
    pub kind: K,
    pub name: &'static str,
    pub times: u64,
}

impl<K> Count<K> {
    pub(crate) fn none_of((kind, name): (K, &'static str)) -> Count<K> {
        Count {
            kind,
            name,
            times: 0,
        }
    }
}

pub(crate) fn add_one<K: PartialEq + Drop>(counts: &mut [Count<K>], kind: K) {
    if let Some(count) = counts.iter_mut().find(|count| count.kind == kind) {
        count.times = count.times.saturating_add(1);
    }
}

pub(crate) fn print_counts<K>(rt: &impl Print, counts: &[Count<K>]) -> io::Result<()> {
    for count in counts {
        let name = count.name;
        let times = count.times;
        println!(rt; "{name}: {times}")?;
    }
    Ok(())
}
