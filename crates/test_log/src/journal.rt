// The journal: a disk that tears at each byte of each write, and fails at each call; and files of the system.
mod compactions;
mod stored;
mod tears;
mod torn;
