ghost use Rattle.std.specs.Prelude.{◌≡◌};
ghost use Rattle.tables.specs.Items.{with_answer, with_request};
ghost use Rattle.tables.specs.Lists.{modify};

use crate::items::change;

// What a session asked for: the key, and the value that insert, write and replace go by. When the
// session ends present, the value found is written over it.
#[derive(Clone, Copy, Debug, PartialEq, Eq)]
pub struct Request<K, V> {
    pub key: K,
    pub value: V,
}

// Writes the value that a session answers.
pub fn put_answer<K: Copy, V: Copy>(requests: &mut [Request<K, V>], session: usize, value: V)
    ensures { requests.new ≡ modify (with_answer value) session requests.old }
{
    change(requests, session, |request| request.value = value);
}

// Writes what a session asks for.
pub fn put_request<K: Copy, V: Copy>(
    requests: &mut [Request<K, V>],
    session: usize,
    key: K,
    value: V,
)
    ensures { requests.new ≡ modify (with_request key value) session requests.old }
{
    change(requests, session, |request| {
        *request = Request { key, value };
    });
}
