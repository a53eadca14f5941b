// Jobs that were declined and come back, and the refusals of a job that was begun.
mod drafts;
mod memories;
