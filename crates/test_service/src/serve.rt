// Requests at desks in turn, and nodes over sockets.
mod clients;
mod fakes;
mod nodes;
mod pieces;
mod turns;

pub(crate) use clients::play_clients;
pub(crate) use pieces::send_pieces;
