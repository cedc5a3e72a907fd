mod connection;
mod door;
mod exchanges;
mod registries;
