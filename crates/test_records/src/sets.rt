// Sets of records beside a plain program.
mod large;
mod plain;
mod side_by_side;
