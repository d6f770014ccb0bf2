// Each bound on both sides, spans of every kind, and layers over layers.
mod calendars;
mod figures;
mod layers;
mod makers;
mod means;
