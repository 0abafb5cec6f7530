/// A call with its arguments, as a sheet's row has them.
#[derive(Clone, Copy, Debug, PartialEq, Eq)]
pub enum Call<C> {
    Start {
        members: u32,
        leader: u32,
    },
    Order {
        controller: u32,
        serial: u32,
        command: C,
    },
    Settle {
        controller: u32,
    },
    Hand {
        envelope: u32,
        controller: u32,
    },
}
