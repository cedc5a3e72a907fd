mod lines;
mod names;
mod refusals;
mod replies;
mod sessions;
