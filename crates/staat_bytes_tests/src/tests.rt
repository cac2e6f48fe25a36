// The tests, and what they share.
mod certificates;
mod comparing;
mod failing_reads;
mod inputs;
mod judging;
mod refusals;
mod replies;
mod shelves;
mod short_texts;
mod texts;
mod writing;
